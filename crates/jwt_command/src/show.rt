//! The command `show`.

ghost use Rattle.std.specs.Prelude.{◌≡◌, ◌≢◌, IfOk};
ghost use Rattle.jwt_base.specs.Kind as kind;
ghost use Rattle.jwt_base.specs.KindOf.{kind_of};
ghost use Rattle.jwt_command.specs.Commands.{IsReadable};

use crate::answer::Answer;
use jsonwebtoken::TokenData;
use jsonwebtoken::dangerous::insecure_decode;
use jsonwebtoken::errors::Error;
use jwt_findings::{contents_text, salvage_texts};
use jwt_requests::{Fault, is_memory};
use serde_json::Value;
use std::alloc::Global;

/// Returns header and claims of a token, of which nothing is verified, with status 0; or status 1
/// if they can't be read as those of a token, with those of its parts that are JSON.
pub fn show_answer(
    alloc: Global,
    token: &[u8],
    time: u64,
    is_json: bool,
) -> Result<Answer, Fault<'static>>
    ensures { IfOk result (λ a. IsReadable token.now a.status) }
{
    match insecure_decode(alloc, token) {
        Ok(data) => {
            let answer = contents_answer(alloc, &data, time, is_json);
            // one drop
            drop(data);
            answer
        }
        Err(error) => unread_answer(alloc, token, time, is_json, error),
    }
}

fn contents_answer(
    alloc: Global,
    data: &TokenData<Value>,
    time: u64,
    is_json: bool,
) -> Result<Answer, Fault<'static>>
    ensures { IfOk result (λ a. a.status ≡ 0) }
{
    let Ok(header) = data.header.to_value(alloc) else {
        return Err(Fault::Memory);
    };
    let output = contents_text(alloc, &header, &data.claims, time, is_json);
    // one drop
    drop(header);
    Ok(Answer {
        status: 0,
        output: output?,
        message: String::from_str(alloc, "NOT VERIFIED\n")?,
    })
}

/// Returns the answer to a text whose header or claims can't be read as those of a token: what can
/// be read.
fn unread_answer(
    alloc: Global,
    token: &[u8],
    time: u64,
    is_json: bool,
    error: Error,
) -> Result<Answer, Fault<'static>>
    ensures { IfOk result (λ a. (kind_of error ≢ kind.OutOfMemory) × (a.status ≡ 1)) }
{
    if is_memory(&error) {
        drop(error);
        return Err(Fault::Memory);
    }
    let salvaged = salvage_texts(alloc, token, time, is_json, error.kind());
    // one drop
    drop(error);
    let (output, message) = salvaged?;
    Ok(Answer {
        status: 1,
        output,
        message,
    })
}
