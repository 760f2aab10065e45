//! Primes, inverses modulo them, and identities of polynomials modulo any number.
//!
//! For the crates of curves and signatures. The groups rest on their fields having a prime modulus,
//! which a certificate shows: `specs/Primes.antt` has the definition, and `proofs/` Pocklington's
//! criterion, trial division and Fermat's little theorem. Of identities the crate has proofs alone,
//! which the prover computes in two ways.
//!
//! `invert_tested::<F, 32, 4>(a)` ([`inverses`]) is the inverse of a residue modulo a prime below
//! 2^256: a candidate that is found by the binary method for the greatest common divisor, if its
//! product with `a` is 1, and else a power.
//!
//! # Identities term by term
//!
//! A term (`proofs/Terms`) is made of variables and numbers by sums, differences and products, and
//! has a value modulo m for any numbers for its variables. `is_identity e g lines` of
//! `proofs/Polynomials` is a test that computes. Each line (c, s, t) is an equation s = t that is
//! taken for granted, such as that a point lies on its curve, with the factor c by which it is
//! used. The test expands e - g, less c * (s - t) for each line, to a polynomial, and asks that all
//! its coefficients are 0. The theorem is `follows`:
//!
//! ```text
//! follows : 0 < m → is_identity e g lines ≡ true → Lines m f lines → value m f e % m ≡ value m f g % m
//! ```
//!
//! If the test says yes, and in each line s and t have one value modulo m at the numbers f, then e
//! and g have one value there.
//!
//! A wrong identity can't pass, since each step of the test keeps the value: `meaning` is the value
//! of a polynomial, and one lemma for each function that computes with polynomials (`add-meaning`,
//! `mul-meaning` and so on) says what that function does to it, by induction; a polynomial whose
//! coefficients are all 0 has the value 0 (`is_zero-meaning`). Nothing rests on the order of the
//! terms, or on who found the factors: with other factors the test says no, and proves nothing. So
//! it can err on one side alone, by refusing an identity that holds.
//!
//! Polynomials are nested: a number, or s + x * t, where x is the first variable and s has none of
//! it. Coefficients are pairs of natural numbers (a, b) for a - b, so that m can stay a variable:
//! -1 is m - 1 in the meaning alone. The test expands everything, so an identity whose sides have
//! tens of thousands of terms takes more steps than the prover grants; the second way is for those.
//!
//! # Identities by one multiplication of large numbers
//!
//! A polynomial with natural coefficients is known from its value at one point, if the number of
//! each variable is larger than what the coefficients add up to: its digits there are the
//! coefficients (Kronecker's substitution). So two polynomials that have one value at such a point
//! are the same, and have one value everywhere. The prover's numbers multiply quickly, and nothing
//! has to be expanded.
//!
//! A program (`proofs/Programs`) is a list of steps, each a sum, difference or product of earlier
//! values, of the inputs and of numbers. Some inputs are roots: the square of root j is a given
//! expression of the others, as y^2 = x^3 - 3x + b is for a point of a curve. The last `outs` steps
//! have to be 0. The theorem is `sound` of `proofs/Sound`, here without its bookkeeping:
//!
//! ```text
//! sound : vanish squares program outs point ≡ true → bounded squares program outs point ≡ true
//!     → 0 < q → each root's square is the value of its expression modulo q → each of the last steps is 0 modulo q
//! ```
//!
//! `vanish` runs the program at the point, with a value u + v y for each root y, and asks that the
//! last values are 0; `bounded` runs it with all differences made sums, and asks that the point is
//! beyond what comes out. Both compute.
//!
//! A wrong identity can't pass: a value is a difference of two polynomials with natural
//! coefficients (`Symbols`), the second run bounds the coefficients of both, and `poly_same` of
//! `Substitution` says that two that agree at such a point agree everywhere. `Relations` has the one
//! induction over programs by which the runs belong together. If the point is too small, `bounded`
//! says no. Nothing rests on who chose the point. `sound_by_grid` is the same when the first
//! variable takes the numbers 0 to d - 1 in turn, for a program whose numbers would be too large
//! otherwise; a polynomial of at most d coefficients is known from its values there (`Lengths`).
//!
//! Numbers grow by a factor with each variable and each degree, so identities of many variables
//! with hypotheses are for the first way.

// A prime has a certificate by Pocklington's criterion with two prime factors of p - 1, whose check
// is a test that computes; it needs no factorization and no greatest common divisors in the logic.
// `tools/certificates/prime_certificates` writes the certificates.

#![tactic(auto)]

mod hints;
pub mod inverses;
