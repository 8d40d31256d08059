// A call's answer as one 64-bit number, which C reads as signed.
ghost use Rattle.std.specs.Prelude.{◌≡◌};
ghost use Rattle.buffers.specs.Refusal.{replied};
ghost use Rattle.wilfnusk.specs.Answers.{minus, int64};

use buffers::Refusal;

pub(crate) fn minus(k: u64) -> u64
    ensures { result ≡ minus k }
{
    k.wrapping_neg()
}

pub(crate) fn int64(answer: Result<u64, Refusal>) -> u64
    ensures { result ≡ int64 (replied answer) }
{
    match answer {
        Ok(n) => n,
        Err(refusal) => minus(refusal.number()),
    }
}
