//! The base points' multiples below the 16th, which have z = 1. `tools/certificates/base_tables`
//! writes the tables.

// The table of the base point is a method of a trait (`BaseMultiples`), so that one body serves
// both curves, and each residue type brings its own curve's constants.

ghost use Rattle.std.specs.Prelude.{ℕ, ◌<◌};
ghost use Rattle.ecdsa.specs.Curves.{b256, base256, b384, base384};
ghost use Rattle.weierstrass.specs.Weierstrass.{Point};
ghost use Rattle.weierstrass.specs.Group.{spot_point};
ghost use Rattle.weierstrass.specs.Jacobian.{IsMultiple};

use crate::moduli::{FieldModulus256, FieldModulus384};
use residues::montgomery::{Montgomery, from_form};
use residues::parts::{four_limbs, six_limbs};
use residues::residue::Residue;

/// Residues that are the coordinates of a curve's points, with the multiples of the curve's base
/// point.
pub trait BaseMultiples: Residue {
    // The b of the curve y^2 = x^3 - 3x + b.
    ghost b: { ℕ };

    // The base point.
    ghost base: { Point };

    /// Returns x and y of the base point's multiple by a digit.
    fn base_multiple(digit: u8) -> (Self, Self)
        requires some { 0 < digit }
        requires few { digit < 16 }
        ensures { IsMultiple Self.modulus b digit base
            (spot_point (Self.number result.0) (Self.number result.1)) };
}

// The forms of x and y of each multiple of P-256's base point, each in two parts, of which the low
// one is the first.
static TABLE_256: [[u128; 4]; 15] = [
    [
        0x75ba95fc5fedb60179e730d418a9143c,
        0x18905f76a53755c679fb732b77622510,
        0x8b4ab8e4ba19e45cddf25357ce95560a,
        0x8571ff1825885d85d2e88688dd21f325,
    ],
    [
        0xaa6ae3c1a433827d850046d410ddd64d,
        0xf6bb32e43dcf3a3b732205038d1490d9,
        0x152cd7cbeb236ff82f3648d361bee1a5,
        0x78c577510a5b8a3b19a8fb0e92042dbe,
    ],
    [
        0xb027f84a087d81fbffac3f904eebc127,
        0x26936a3fb6ff747e66ad77dd87cbbc98,
        0x583e47ad0861fe1ab04c5c1fc983a7eb,
        0xd5f06a29e587cc07788208311a2ee98e,
    ],
    [
        0x4650a6edc623c17374b0b50d46918dcc,
        0x577362f541b0176b0cdaacace8100af2,
        0x17628471fad6f4472d96f24ce4cbaba6,
        0x84b14c394c5ab8636b6c36dee5ddd22e,
    ],
    [
        0x90ec649a94b9537dbe1b8aaec45c61f5,
        0xc9079605890523c8941cb5aad076c20c,
        0x73c568efe5eb882beb309b4ae7ba4f10,
        0x73a076bb2dd1e9163540a9877e7a1f68,
    ],
    [
        0x55ae744f346cee3e403947373e77664a,
        0x13074b5954213673d50a961a5b17a3ad,
        0x299c2b53adff14b593d36220d377e44b,
        0xa4c9916d4a07f75ff424d44cef639f11,
    ],
    [
        0x2bd20213d23c00f70746354ea0173b4f,
        0x13ba5119c3123e03f43eaab50c23bb08,
        0x6742f2f25da67bdd2847d0303f5b9d4d,
        0xeaedd9156e240867ef933bdc77c94195,
    ],
    [
        0x462ab5c56f9b345527f14cd19499a78f,
        0xb763891eb265230d8f90f02af02cfc6b,
        0x21e3327dcf9eba15f59da3a9532d4977,
        0x56ec12f27706df76123c7b84be60bbf0,
    ],
    [
        0xabe6bfed59a7a84175c96e8f264e20e8,
        0xe05b3080f0c4e16b2cc09c0444c8eb00,
        0x56af7bedce5d45e31eb7777aa45f3314,
        0x086659cdfd835f9b2b6e019a88b12f1a,
    ],
    [
        0x98f9868a0fcf81392c18dbd19dc21ec8,
        0xcc61c94724b3428f737d2cd648250b49,
        0xc43a8991383fbe080c2b407880dd9e76,
        0x78719a54eb3b4ab55f7d2d65779be5d2,
    ],
    [
        0x9de407956e7fdfe0ea7d260a6245e404,
        0x3e7090f1649c90731ff3a4158dac1ab5,
        0x250f939ee57f61c81a7685612b944e88,
        0x68930023e125b88e0c0daa891ead643d,
    ],
    [
        0xabdedef5ca345a3304b71aa7d2697768,
        0x4ee1df77cb83e1562409d29dee37385e,
        0x170ed2f6ca8956370cac12d91cbb5b43,
        0x7ff57c9553238aca28228cfa8ade6d66,
    ],
    [
        0x0e356769856fd30dccc425634b2ed709,
        0x738477ac5395b759bcbcd43f559e9811,
        0x68748390742ed2e335752b90c00ee17f,
        0xfbc08769c9e7b7977cd06422bd1f5bc1,
    ],
    [
        0x126e48f77f9707e3a242a35bb0cf664a,
        0xfaae7332fd12c72e1717bf54c6832660,
        0xbe29569e832237c227b52db7995d586b,
        0x152706dc2eaa1bbbe8e4193e2a65e7db,
    ],
    [
        0x03cc23ee56e27e4b72bcd8b7bc60055b,
        0xe2aa0e430ad3da09ee337424e4819370,
        0xd766355442a41b2540b8524f6383c45d,
        0x2042170a7079adf464efa6de778a4797,
    ],
];

// The forms of x and y of each multiple of P-384's base point, each in three parts, of which the
// low one is the first.
static TABLE_384: [[u128; 6]; 15] = [
    [
        0x20e378e2a0d6ce383dd0756649c0b528,
        0x6454868459a30eff879c3afc541b4d6e,
        0x4d3aadc2299e1513812ff723614ede2b,
        0xa1bfa8bf7bb4a9ac23043dad4b03a4fe,
        0xc6c3521968f4ffd98bade7562e83b050,
        0x2b78abc25a15c5e9dd8002263969a840,
    ],
    [
        0x8e6c8f2e022b53f0c8229e55783dde91,
        0xda821495f0687f503504e6f0ff9d48a1,
        0xdb93b776427460c39c90a4fd2de4b506,
        0xe8e8e4a8c2aaccd842ea84633140bfda,
        0x09f1fe415172bad915e4f18bdc588258,
        0xe34947f7123df0c2070d430900b0e684,
    ],
    [
        0xc54ea9fff04f779c05e4dbe6c1dc4073,
        0x3a48d732d51c6c3e6b2034e9a170ccf0,
        0xd283fe68e7c1c3ace36f7e2d263aa470,
        0x92d789a77ae0e36d7e284821c04ee157,
        0x68012d5ad2e1d0b4132663c04ef67446,
        0x465465fc983292aff6db68b15102b339,
    ],
    [
        0x30594ccbee0421e30aae8477ebb68f2c,
        0x078358d4736400ad2e4f153b0aecac46,
        0xcfeee6dd34179228fb40f647d685d979,
        0xe74bb7f17bfec97e54f3e8e79b3a03b2,
        0x147162d30418c6938e3e61a34c542ad1,
        0x50946875303df319e607b9e33820017d,
    ],
    [
        0xc185c0cbcc873466bb595eba68f1f0df,
        0x60db2cf5aacc05e67f1eb1b5293c703b,
        0xe1bb26b11d178ffbc676b987e2e8e4c6,
        0x22c16e2e72f345662b694ba07073fa21,
        0x4b237faf982c041180b61b3101c35b99,
        0x4db1c9d6e209e4a3e6c5944024de236d,
    ],
    [
        0xcb2454b339d3413a7eb5c9317d56dad8,
        0x2a33f6661bdf6015ec52930f580d57f2,
        0xc482e189f0430c404f0f6a962b02d33b,
        0x739ac69d5b3d4dce3f62b16ea7b08203,
        0x93c9e5f61b546f058bd4bffcb79e33b0,
        0xc9962152af2a9eba586d8ededf21559a,
    ],
    [
        0x4ce6415f874774b1df13b9d17d69222b,
        0x5f4215d1659753ed731edcf8211faa95,
        0x932c9f811c89025bf893db589db2df55,
        0x135349d5a8641c790996b2207706a61e,
        0x0ff37c0401fff78065aad76f50130844,
        0xd90a16b6af6c9b3ef57f238e693b0706,
    ],
    [
        0x9e336de5ae9b587a23f60a05dd9bcbba,
        0x1d9aebd64f3ddb371c5c2e7193d7e30f,
        0x5db4f184349cd9b11c7b5fe116b66423,
        0x836dbb36b7e55e870d2cfe83e6655a44,
        0xe9923263a42dbba2701754bf7d8686e4,
        0x3c0c6dd70d27ef617008d943c48ecf0e,
    ],
    [
        0xe35d87293fd7e4f92f5d200e2353b92f,
        0xdc351dc13cbfff3f26094833a96d745d,
        0x5cab1d1d53636c6a26d464c6dad54d6a,
        0x3777e270d742aa2ff2813072b18ec0b0,
        0xa6ecaccc68ead0d827f061c7033ca7c2,
        0xe770633431e8f5c67d9429f4ee69a754,
    ],
    [
        0x2a15a9a6e58d6787845539d3c8d99c02,
        0x54a612d7eb32cabee9f6368eab225fa3,
        0xa91a5280db1c212ec2f646025c4845ec,
        0x03a530eb13b9e85cbb971f78e67b5fce,
        0x81961b8ccfd7fd1d592ac0ba794eabfd,
        0x6eb995bec80174e83e03370a47a9b8aa,
    ],
    [
        0x4532077c44377abac7708b19b68b8c7d,
        0x01b8bf56147b66020dcc67706cdad64f,
        0x9c19e9fc7ba9c437f8d89885f0561d79,
        0x604fe46bac144b83764eb146bdc4ba25,
        0x2e070f36fe9e682e3ce813298a77e780,
        0x9aa62f9f3533f91841821d0c3a53287a,
    ],
    [
        0xd4258cc55d9704203db8477270313de0,
        0xf67eb42235d77d8303aced26c8edfee1,
        0x627b415f9c35b26d523c40dbcf9ab45c,
        0x80d60af627aa651afacc45e48be55ed8,
        0x40c64a4e66bed5af8c79848fd0e102ac,
        0x0c6e430ef9c4af3d0329eab1f7942f0e,
    ],
    [
        0xb25e28c5f6749a959b7aeb7e75ccbdfb,
        0xdb5203a8d9c1bd568a7a8e4633b7d4ae,
        0xb51c56e18cf23c94d2657265ed22df97,
        0xd8e88f1a87cae0c2f4d394596c3d812d,
        0xb7feac2dfec38d60789a2a48cf4d0fe3,
        0x4617adb7cc6979e181fdbd1c3b490ec3,
    ],
    [
        0xd02225fb01ec909f5865e5018f75244c,
        0x44ce05ff88957166ca6b1af8b1f85c2a,
        0x46d227c432f6b1ba8058994c5710c0c9,
        0x540b8b82730a99d1be4b4a9003cb68e5,
        0x72445345d9c3b6911ecc8585e11dbbbf,
        0x4429839ddefbadf5647d24db13690a74,
    ],
    [
        0x2b7210e2ec3dabd8446ad8884709f4a9,
        0x59500917789b307583ccf19550e07b34,
        0xfb62d26f4903026b0fc01fd4eb085993,
        0x61609cbd144bd5862309cc9d6fe989bb,
        0xdddc2866d898f4704b23d3a0de06610c,
        0x5a68c6fed0bc27168733fc41400c5797,
    ],
];

impl BaseMultiples for Montgomery<FieldModulus256, 4> {
    ghost b = { b256 };

    ghost base = { base256 };

    fn base_multiple(digit: u8) -> (Self, Self) {
        multiple_256(digit)
    }
}

impl BaseMultiples for Montgomery<FieldModulus384, 6> {
    ghost b = { b384 };

    ghost base = { base384 };

    fn base_multiple(digit: u8) -> (Self, Self) {
        multiple_384(digit)
    }
}

// The coordinates of a multiple of P-256's base point.
fn multiple_256(
    digit: u8,
) -> (
    Montgomery<FieldModulus256, 4>,
    Montgomery<FieldModulus256, 4>,
)
    requires some { 0 < digit }
    requires few { digit < 16 }
    ensures { IsMultiple ⟦<Montgomery<FieldModulus256, 4> as Residue>⟧.modulus b256 digit base256
        (spot_point (⟦<Montgomery<FieldModulus256, 4> as Residue>⟧.number result.0)
        (⟦<Montgomery<FieldModulus256, 4> as Residue>⟧.number result.1)) }
{
    let row = TABLE_256[usize::from(digit) - 1];
    (
        from_form(four_limbs(row[0], row[1])),
        from_form(four_limbs(row[2], row[3])),
    )
}

// The coordinates of a multiple of P-384's base point.
fn multiple_384(
    digit: u8,
) -> (
    Montgomery<FieldModulus384, 6>,
    Montgomery<FieldModulus384, 6>,
)
    requires some { 0 < digit }
    requires few { digit < 16 }
    ensures { IsMultiple ⟦<Montgomery<FieldModulus384, 6> as Residue>⟧.modulus b384 digit base384
        (spot_point (⟦<Montgomery<FieldModulus384, 6> as Residue>⟧.number result.0)
        (⟦<Montgomery<FieldModulus384, 6> as Residue>⟧.number result.1)) }
{
    let row = TABLE_384[usize::from(digit) - 1];
    (
        from_form(six_limbs(row[0], row[1], row[2])),
        from_form(six_limbs(row[3], row[4], row[5])),
    )
}
