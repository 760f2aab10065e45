//! The base point's multiples below the 16th, as sums take them. `tools/certificates/base_tables`
//! writes the table.

ghost use Rattle.std.specs.Prelude.{◌<◌};
ghost use Rattle.edwards.specs.Factors.{affine_numbers};
ghost use Rattle.ed25519.specs.Ed25519.{p, base};
ghost use Rattle.ed25519.specs.private_clauses.Prepared.{IsPrepared};

use crate::field::{FieldElement, from_parts};
use edwards::factors::AffineAddend;
use residues::residue::Residue;

// y + x, y - x and 2 d x y of each multiple, in two halves, of which the low one is the first.
static BASE_TABLE: [[u128; 6]; 15] = [
    [
        0xcf932dc6fb8c0e192fbc93c6f58c3b85,
        0x07cf9d3a33d4ba65270b4898643d42c2,
        0xfd399f05d140beb39d103905d740913e,
        0x44fd2f9298f81267a5c18434688f8a09,
        0x26d9e823ccaac49eabc91205877aaa68,
        0x6f117b689f0c65a85a1b7dcbdd43598c,
    ],
    [
        0x9f469d967a0ff5b59224e7fc933c71d7,
        0x590c063fa87d2e2e5aa69a65e1d60702,
        0x8f2b810c4e60acf68a99a56042b4d5a8,
        0x6bb595a669c92555e09e236bb16e37aa,
        0x36c16bdd5d9acf7843faa8b3a59b7a5f,
        0x701af5b13ea50b73500fa0840b3d6a31,
    ],
    [
        0x025a8430e8864b8aaf25b0a84cee9730,
        0x7a164e1b9a80f8f4c11b50029f016732,
        0x3bd353fde5c1ba7d56611fe8a4fcd265,
        0x2ab91587555bda628131f31a214bd6bd,
        0x589423221c35da6214ae933f0dd0d889,
        0x5a2826af12b9b4c6d170e5458cf2db4c,
    ],
    [
        0x6765c6f47dfd2538287351b98efc099f,
        0x680e910321e58727ca348d3dfb0a9265,
        0x327e89715660faa995fe050a056818bf,
        0x27933f4c7445a49ac3e8e3cd06a05073,
        0x6e9e39457b5cc1725a13fbe9c476ff09,
        0x7f9d0cbf63553e2b5ddbdcf9102b4494,
    ],
    [
        0x8d5048c3c75eed02a212bc4408a5bb33,
        0x2945ccf146e206ebdd1beb0c5abfec44,
        0xd50014d14b2729b77f9182c3a447d6ba,
        0x154a7e73eb1b55f3e33cf11cb864a087,
        0x270e0807d0bdd1fcbcbbdbf1812a8285,
        0x43aabe696b3bb69ab41b670b1bbda72d,
    ],
    [
        0x9b27158900c8af883a0ceeeb77157131,
        0x51e57bb6a2cc38bd8065b668da59a736,
        0x575be28427d22739499806b67b7d8ca4,
        0x38b64c41ae417884bb085ce7204553b9,
        0xbe70e00341a1bb0185ac326702ea4b71,
        0x10b8e91a9f0d61e353e4a24b083bc144,
    ],
    [
        0x7470353ab39dc0d26b1a5cd0944ea3bf,
        0x461bea69283c927e71b2528228542e49,
        0x6ca021533bba23a7ba6f2c9aaa3221b1,
        0x1d6edd5d2e5317e09dea764f92192c3a,
        0xb3035f47053ea49af1836dc801b8b3a2,
        0x7a9fbb1c6a0f90a7529c41ba5877adf3,
    ],
    [
        0x6cb30377e288702c59b7596604dd3e8f,
        0x0915e76061bce52fb1339c665ed9c323,
        0x963d7680e1b558f9e2a75dedf39234d9,
        0x3a9024a1320e01c32c2741ac6e3c23fb,
        0xb8a371788bcca7d7e7c1f5d9c9a2911a,
        0x26907c5c2ecc4e95636412190eb62a32,
    ],
    [
        0xa6509e6f51bc46c59b2e678aa6a8632f,
        0x34b9ed338add7f59ceb233c9c686f5b5,
        0x98a081b6f520419bf36e217e039d8064,
        0x49c05a51fadc9c8f96cbc608e75eb044,
        0xe2ff83e8a719d22f06b4e8bf9045af1b,
        0x73c172021b008b06aaf6fc2993d4cf16,
    ],
    [
        0x45f534d41617e057ff1d93d2b360748e,
        0x43ac7628aae591ed0d5503639b554646,
        0x04f8183665a9f02f75f3558e227081dd,
        0x0353832c4950b70284739745f5dc3958,
        0x1d0c1ccbd3f06340d03d2ae403d0f8d8,
        0x0ec62af470bf4ce7ff169f0f6731b509,
    ],
    [
        0xe5d9fecf02302e272fbf00848a802ade,
        0x4275aae2546d8faf113e847117703406,
        0x3ed6b36977088381315f5b0249864348,
        0x18ab598029d5c77fa3a075556a8deb95,
        0x031eb4a13282e4a4d82b2cc5fd6089e9,
        0x3dc65522b53df94844311199b51a8622,
    ],
    [
        0x88de3dd7d834d1a9e2358042a71e7539,
        0x078aafde8d3cdd5845ecdd2e701a6f93,
        0x23b2bf90ccb25b24856f8375b53d54b9,
        0x7956ece28a6022ed884dfb6e56d5dbdd,
        0xf66cda23a24e180beea594d87f944553,
        0x37c6a5151c83d0c6ffcb589af4976461,
    ],
    [
        0xbf84b39ab5bcdedbbf70c222a2007f6d,
        0x234fd7eec346f241537a0e12fb07ba07,
        0xaefcebc99b776f6b506f013b327fbf93,
        0x0267882d176024a79d12b232aaad5968,
        0x2437e6b1df8dd4715360a119732ea378,
        0x497ba6fdaa097863a2ef37f891a7e533,
    ],
    [
        0x80277fc057efa98726f870ec3f213df2,
        0x6eaf60b2464d16301a474c042881bdd5,
        0xce69b20fdb7ca331dfdb8a44d4171280,
        0x2df0ea2c5b3c80d2112e56f16eec47a9,
        0xf02397eda2a9bf5496a1c5877a1e1b82,
        0x24bf7e3cd8ba9c939c1fdf703ecb1baa,
    ],
    [
        0x8648c28d189c246d24cecc0313cfeaa0,
        0x61e22917f12de72b2dbdbdfac1f2d4d0,
        0xd3829ba42a9910d6040bcd86468ccf0b,
        0x43b5cd4218d05ebf7508300807b25192,
        0xeb38af4e373fdeee5d9a762f9bd0b516,
        0x511d61210ae4d842032e5a7d93d64270,
    ],
];

/// Returns the numbers that a sum takes of the base point's multiple.
pub fn base_addend(digit: u8) -> AffineAddend<FieldElement>
    requires some { 0 < digit }
    requires few { digit < 16 }
    ensures { IsPrepared base digit
        (affine_numbers ⟦<FieldElement as Residue>⟧.number p result) }
{
    let row = BASE_TABLE[usize::from(digit) - 1];
    AffineAddend {
        sum: from_parts(row[0], row[1]),
        difference: from_parts(row[2], row[3]),
        scaled_t: from_parts(row[4], row[5]),
    }
}
