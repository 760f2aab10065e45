//! The encoded messages of RSASSA-PKCS1-v1_5 (RFC 8017 section 9.2).

ghost use Rattle.std.specs.Prelude.{◌≡◌, ◌↔◌, ℕ, ◌+◌, ◌-◌, List, ◌++◌, ◌∷◌, IsTrue, IfOk, IfErr};
ghost use Rattle.std.specs.Prelude.{length};
ghost use Rattle.jwt_base.specs.KindOf.{IsMemory};
ghost use Rattle.jwt_rsa.specs.Pkcs1.{digest_info, digest_info_of, encoded};

use jwt_base::errors::Result;
use jwt_crypto::Hash;
use std::alloc::Global;

// The encoded message, in this many octets.
pub(crate) fn encode(alloc: Global, hash: Hash, message: &[u8], count: usize) -> Result<Vec<u8>>
    ensures ok { IfOk result (λ v. v.items ≡ encoded hash message.now count) }
    ensures err { IfErr result IsMemory }
{
    let info = digest_info_of(alloc, hash, message)?;
    let padding = vec![in alloc; 0xff; count.saturating_sub(3 + info.len())]?;
    let mut octets = vec![in alloc; 0, 1]?;
    octets.extend_from_slice(&padding)?;
    octets.push(0)?;
    octets.extend_from_slice(&info)?;
    Ok(octets)
}

// The octets of DigestInfo before the digest.
fn digest_info(hash: Hash) -> &'static [u8]
    ensures { result.now ≡ digest_info hash }
{
    match hash {
        Hash::Sha256 => &[
            0x30, 0x31, 0x30, 0x0d, 0x06, 0x09, 0x60, 0x86, 0x48, 0x01, 0x65, 0x03, 0x04, 0x02,
            0x01, 0x05, 0x00, 0x04, 0x20,
        ],
        Hash::Sha384 => &[
            0x30, 0x41, 0x30, 0x0d, 0x06, 0x09, 0x60, 0x86, 0x48, 0x01, 0x65, 0x03, 0x04, 0x02,
            0x02, 0x05, 0x00, 0x04, 0x30,
        ],
        Hash::Sha512 => &[
            0x30, 0x51, 0x30, 0x0d, 0x06, 0x09, 0x60, 0x86, 0x48, 0x01, 0x65, 0x03, 0x04, 0x02,
            0x03, 0x05, 0x00, 0x04, 0x40,
        ],
    }
}

// DigestInfo of the message's digest.
fn digest_info_of(alloc: Global, hash: Hash, message: &[u8]) -> Result<Vec<u8>>
    ensures ok { IfOk result (λ v. v.items ≡ digest_info_of hash message.now) }
    ensures err { IfErr result IsMemory }
{
    let digest = hash.digest(alloc, message)?;
    let mut info = Vec::from_slice(alloc, digest_info(hash))?;
    info.extend_from_slice(&digest)?;
    Ok(info)
}
