// The order of texts ("Texts compare by code points, shorter first"). On well-formed texts it is the order of the
// bytes, which is what is compared here.
ghost use Rattle.std.specs.Prelude.{◌≡◌, ◌+◌, ◌≤◌, length};
ghost use Rattle.std.specs.declared.cmp.Ordering.{Ordering};
ghost use Rattle.letters.specs.Order.{order_of, same_text};
ghost use Rattle.letters.specs.OrderContracts.{Left, EightIs};

use std::cmp::Ordering;

// As many bytes are looked at in one turn.
const EIGHT: usize = 8;

// Every byte is below this number.
const BYTE: u64 = 256;

// The eight bytes at a place as one number, the first one the lowest.
#[tactic(auto, using(crate::proofs::EightLaws::eight_laws))]
fn eight_at(s: &[u8], i: usize) -> u64
    requires { i + 8 ≤ length s.now }
    ensures { EightIs s.now i result }
{
    let high = u64::from(s[i + 4])
        + BYTE * (u64::from(s[i + 5]) + BYTE * (u64::from(s[i + 6]) + BYTE * u64::from(s[i + 7])));
    u64::from(s[i])
        + BYTE
            * (u64::from(s[i + 1])
                + BYTE * (u64::from(s[i + 2]) + BYTE * (u64::from(s[i + 3]) + BYTE * high)))
}

// Up to where both texts are the same, as far as eight bytes at a time tell.
// Stays a loop by hand: it counts bytes, and stops at the first eight that differ.
#[tactic(auto, using(crate::proofs::EightLaws::eight_laws))]
fn alike_to(a: &[u8], b: &[u8], n: usize) -> usize
    requires in_a { n ≤ length a.now }
    requires in_b { n ≤ length b.now }
    ensures { Left Ordering order_of a.now b.now result }
{
    let mut i = 0;
    while i + EIGHT <= n {
        if eight_at(a, i) != eight_at(b, i) {
            return i;
        }
        i += EIGHT;
    }
    i
}

// How a stands to b: by the first bytes that differ, else the shorter one first.
#[tactic(auto, using(crate::proofs::EightLaws::eight_laws))]
pub fn compare(a: &[u8], b: &[u8]) -> Ordering
    ensures { result ≡ order_of a.now b.now }
{
    let n = a.len().min(b.len());
    for i in alike_to(a, b, n)..n {
        if a[i] != b[i] {
            return a[i].cmp(&b[i]);
        }
    }
    a.len().cmp(&b.len())
}

// Whether a and b are the same bytes.
#[tactic(auto, using(crate::proofs::OrderLaws::order_laws))]
pub fn same(a: &[u8], b: &[u8]) -> bool
    ensures { result ≡ same_text a.now b.now }
{
    a == b
}
