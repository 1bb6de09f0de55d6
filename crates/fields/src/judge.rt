// How one field is judged, wherever it comes from: None is a field that is not complete. A width in a contract is the field's on the sheet:
// judging does not use it.
#![tactic(auto, using(crate::proofs::ReadLaws::judging))]

ghost use Rattle.std.specs.Prelude.{◌≡◌, ℕ, [], ◌∷◌, ◌≤◌, leb, length, IfOk, Some};
ghost use Rattle.fields.specs.Judging.{Field, read, entry, free, outside, follows, refusal, judged};
ghost use Rattle.fields.specs.Refusals.{number, refusal_number};

use crate::refusal::Refusal;

// A field's value where it is low to high.
pub fn judge_within(
    field: Option<usize>,
    low: usize,
    high: usize,
    refusal: Refusal,
) -> Result<usize, Refusal>
    ensures judged { (w : ℕ) (f : Field) → field ≡ read f
        → refusal_number result ≡ judged (entry w f (number refusal) (outside low high f.value) ∷ []) }
    ensures value { IfOk result (λ v. field ≡ Some v) }
    ensures inside { IfOk result (λ v. (low ≤ v) × (v ≤ high)) }
{
    let value = field.ok_or(Refusal::Incomplete)?;
    if value < low || high < value {
        return Err(refusal);
    }
    Ok(value)
}

// A field's value where it is below end: apart from the judge above, since the table says "below", and below 0 there is no value.
pub fn judge_below(field: Option<usize>, end: usize, refusal: Refusal) -> Result<usize, Refusal>
    ensures judged { (w : ℕ) (f : Field) → field ≡ read f
        → refusal_number result ≡ judged (entry w f (number refusal) (leb end f.value) ∷ []) }
    ensures value { IfOk result (λ v. field ≡ Some v) }
{
    let value = field.ok_or(Refusal::Incomplete)?;
    if end <= value {
        return Err(refusal);
    }
    Ok(value)
}

// A field's value, whatever it is.
pub fn judge_free(field: Option<usize>) -> Result<usize, Refusal>
    ensures judged { (w : ℕ) (f : Field) → field ≡ read f → refusal_number result ≡ judged (free w f ∷ []) }
    ensures value { IfOk result (λ v. field ≡ Some v) }
{
    field.ok_or(Refusal::Incomplete)
}

// Nothing may follow what ends after so many bytes.
pub fn judge_end(s: &[u8], end: usize) -> Result<(), Refusal>
    ensures { refusal_number result ≡ refusal (follows end s.now ∷ []) }
{
    if end < s.len() {
        return Err(Refusal::Rest);
    }
    Ok(())
}
