//! `Text` and `Texts`.

use jsonwebtoken::{Text, Texts};
use jwt_rows::calls::{debug, eq, hash};
use jwt_rows::output::List;
use jwt_rows::{Answer, Row};

/// Makes a call of `Text`.
pub fn text(method: &str, row: &Row<'_>) -> Answer {
    match method {
        "from_str" => {
            let text = row.text("text");
            row.end(Text::from_str(row.begin(), text))
        }
        "from" => {
            let string = row.read::<String>("text")?;
            row.begin();
            row.give(&Text::from(string))
        }
        "into_string" => {
            let text = row.read::<Text>("text")?;
            row.begin();
            row.give(&text.into_string())
        }
        "eq" => eq::<Text>(row),
        "hash" => hash::<Text>(row),
        "debug" => debug::<Text>(row, "text"),
        _ => of_text(method, row),
    }
}

/// Makes a call of `Texts`.
pub fn texts(method: &str, row: &Row<'_>) -> Answer {
    match method {
        "from_slice" => {
            let texts = row.texts("texts");
            row.end(Texts::from_slice(row.begin(), texts.as_slice()))
        }
        "from" => {
            let texts = row.read::<Vec<Text>>("texts")?;
            row.begin();
            row.give(&Texts::from(texts))
        }
        "into_vec" => {
            let texts = row.read::<Texts>("texts")?;
            row.begin();
            row.give(&List(texts.into_vec().as_slice()))
        }
        "eq" => eq::<Texts>(row),
        "hash" => hash::<Texts>(row),
        "debug" => debug::<Texts>(row, "texts"),
        _ => of_texts(method, row),
    }
}

fn of_text(method: &str, row: &Row<'_>) -> Answer {
    let text = row.input::<Text>("text")?;
    let alloc = row.begin();
    match method {
        "as_str" => row.give(&text.as_str()),
        "clone" => row.end(text.clone(alloc)),
        _ => None,
    }
}

fn of_texts(method: &str, row: &Row<'_>) -> Answer {
    let texts = row.input::<Texts>("texts")?;
    let alloc = row.begin();
    match method {
        "as_slice" => row.give(&List(texts.as_slice())),
        "clone" => row.end(texts.clone(alloc)),
        _ => None,
    }
}
