// Varints: seven bits a byte, lowest group first; the top bit says that another byte follows.
#![tactic(auto)]

ghost use Rattle.std.specs.Prelude.{◌≡◌, ◌+◌, ◌^◌, ◌≤◌, ◌<◌, length};
ghost use Rattle.std.proofs.lemmas.List.Edits.{sets};
ghost use Rattle.varint.specs.Varint.{wide, narrow, limit, read_at, put};
ghost use Rattle.varint.specs.Answers.{said_u64, said_u32, said_written, writing, written};

use refusal::Refusal;

// A place in a slice, at which numbers are read or written. It may lie past the end.
#[derive(Clone, Copy, Debug, PartialEq, Eq)]
pub struct Cursor {
    pub at: usize,
}

impl Cursor {
    // The number and the cursor after it.
    pub fn read_u64(self, s: &[u8]) -> Result<(u64, Cursor), Refusal>
        ensures { said_u64 result ≡ read_at wide s.now self.at }
    {
        number(s, self.at, 9, 1)
    }

    pub fn read_u32(self, s: &[u8]) -> Result<(u32, Cursor), Refusal>
        ensures { said_u32 result ≡ read_at narrow s.now self.at }
    {
        let (n, next) = number(s, self.at, 4, 15)?;
        Ok((n as u32, next))
    }

    // The shortest form of x, and the cursor after it; nothing where there is no room for the whole.
    #[tactic(auto, unfolding(crate::specs::Answers::writing, crate::specs::Answers::written))]
    pub fn write(self, out: &mut [u8], x: u64) -> Result<Cursor, Refusal>
        ensures { (said_written result ≡ writing out.old self.at x) × (out.new ≡ written out.old self.at x) }
    {
        // A place past the end has no room either: no form is empty.
        if out.len().saturating_sub(self.at) < size(x) {
            return Err(Refusal::RoomTooShort);
        }
        Ok(Cursor {
            at: put_at(out, self.at, x),
        })
    }
}

// The reader of both widths: at most `before` bytes that another may follow, and then one of at most `cap`.
fn number(s: &[u8], at: usize, before: usize, cap: u64) -> Result<(u64, Cursor), Refusal>
    requires { (1 ≤ cap) × (limit (record { before = before; cap = cap }) ≤ 2 ^ 64) }
    ensures { said_u64 result ≡ read_at (record { before = before; cap = cap }) s.now at }
{
    let mut value = 0;
    let mut scale = 1;
    // Stays: by place, since the place behind the number is a part of the answer.
    for p in at..s.len() {
        let b = u64::from(s[p]);
        if p - at == before {
            if cap < b {
                return Err(Refusal::VarintTooLarge);
            }
            return Ok((value + b * scale, Cursor { at: p + 1 }));
        }
        if b < 128 {
            return Ok((value + b * scale, Cursor { at: p + 1 }));
        }
        value += (b - 128) * scale;
        scale *= 128;
    }
    Err(Refusal::VarintCutOff)
}

// How many bytes the shortest form has: of n bits it is 1 + 9 * n / 64, a byte for every seven that are begun, with no
// branch.
pub fn size(x: u64) -> usize
    ensures { result ≡ length (put wide x) }
{
    ((640 - 9 * x.leading_zeros()) / 64) as usize
}

// The shortest form, where there is room for it. A u64 runs out of bits by the tenth byte, so nothing is counted.
// Stays: the `while` over the number itself, since a `for` over as many places as it takes writes a quarter slower.
fn put_at(out: &mut [u8], from: usize, x: u64) -> usize
    requires { from + length (put wide x) ≤ length out.old }
    ensures { (result ≡ from + length (put wide x)) × (out.new ≡ sets out.old from (put wide x)) }
{
    let mut at = from;
    let mut rest = x;
    while 128 <= rest {
        out[at] = (128 + rest % 128) as u8;
        at += 1;
        rest /= 128;
    }
    out[at] = rest as u8;
    at + 1
}
