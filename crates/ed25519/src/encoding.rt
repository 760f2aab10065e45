//! Encodings of points (RFC 8032 section 5.1.2).

ghost use Rattle.std.specs.Prelude.{◌≡◌, ◌↔◌, IsTrue, length};
ghost use Rattle.edwards.specs.Numbers.{numbers};
ghost use Rattle.edwards.specs.Group.{IsPoint};
ghost use Rattle.ed25519.specs.Ed25519.{p, d};
ghost use Rattle.ed25519.specs.private_clauses.Encodings.{IsEncoding};

use crate::decoding::parts;
use crate::moduli::Field;
use algebra::inverses::invert_tested;
use edwards::points::ExtendedPoint;

// Whether the 32 bytes encode this point of the curve. It takes no square root: the point's x and y
// are compared with the bytes.
pub(crate) fn is_encoding<F: Field>(bytes: &[u8], point: ExtendedPoint<F>) -> bool
    requires size { length bytes.now ≡ 32 }
    requires on_curve { IsPoint p d (numbers F.number point) }
    ensures { IsTrue result ↔ IsEncoding bytes.now (numbers F.number point) }
{
    let Some((y, sign)) = parts::<F>(bytes) else {
        return false;
    };
    if !y.times(point.z).is_same(point.y) {
        return false;
    }
    let x = point.x.times(invert_tested::<F, 32, 4>(point.z));
    x.is_odd() == (sign == 1)
}
