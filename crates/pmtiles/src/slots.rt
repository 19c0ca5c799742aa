// Values put into lent slots, and the status that says how a call went.
ghost use Rattle.std.specs.Prelude.{◌≡◌, ◌≤◌, ◌∷◌, [], List, ℕ, length};
ghost use Rattle.std.proofs.lemmas.List.Edits.{sets};
ghost use Rattle.refusal.specs.Said.{said};
ghost use Rattle.pmtiles.specs.Exports.{Answered, Sought, maybe_of, within};

use refusal::Refusal;

// The status of a search that finds nothing.
const ABSENT: u8 = 255;

// What is told as N numbers.
pub(crate) trait Values<const N: usize>: Copy {
    ghost listed: { Self → List ℕ };

    fn values(self) -> [u64; N]
        ensures { result ≡ listed self };
}

// A call that tells its status alone.
impl Values<0> for () {
    ghost listed = { λ _. [] };

    fn values(self) -> [u64; 0] {
        []
    }
}

impl Values<1> for u64 {
    ghost listed = { λ n. n ∷ [] };

    fn values(self) -> [u64; 1] {
        [self]
    }
}

impl Values<1> for usize {
    ghost listed = { λ n. n ∷ [] };

    fn values(self) -> [u64; 1] {
        [self as u64]
    }
}

#[tactic(auto, using(crate::proofs::Copied::copied))]
pub(crate) fn put<T: Copy, const N: usize>(out: &mut [T], values: [T; N])
    requires { N ≤ length out.old }
    ensures { out.new ≡ sets out.old 0 values }
{
    out[..N].copy_from_slice(&values);
}

// The status of a search, and what it found in the first slots; only what was found changes any.
pub(crate) fn tell_found<const N: usize, T: Values<N>>(
    out: &mut [u64],
    answer: Result<Option<T>, Refusal>,
) -> u8
    ensures { Sought (within N out.old (said maybe_of answer)) T.listed out.old result out.new }
{
    if out.len() < N {
        return Refusal::RoomTooShort.number();
    }
    match answer {
        Ok(Some(x)) => {
            put(out, x.values());
            0
        }
        Ok(None) => ABSENT,
        Err(r) => r.number(),
    }
}

// The status of a call, and its values in the first slots; a refusal changes none.
pub(crate) fn tell<const N: usize, T: Values<N>>(out: &mut [u64], answer: Result<T, Refusal>) -> u8
    ensures { Answered (within N out.old (said (λ x. x) answer)) T.listed out.old result out.new }
{
    tell_found(out, answer.map(Some))
}
