//! Scans records in place; a caller that keeps them copies their bytes later. The functions are
//! inlined, because a call costs as much as two fields.

ghost use Rattle.std.specs.Prelude.{◌≡◌, ℕ, List, Ok, map, IfOk, IsTrue};
ghost use Rattle.cs_model.specs.Packed.{packed};
ghost use Rattle.cs_model.specs.declared.value.Field.{Field};
ghost use Rattle.cs_model.specs.Rule.{old_rule, new_rules};
ghost use Rattle.cs_parse.specs.Canonical.{IsCanonical, both_packed};
ghost use Rattle.cs_parse.specs.Count.{bytes_after};
ghost use Rattle.cs_parse.specs.FieldRules.{rule_of, column_rule};
ghost use Rattle.cs_parse.specs.Reading.{Reads, record_at, records_at};

use crate::and::both;
use crate::field::field_in;
use crate::rule::{FieldRule, rule_by_flag, rule_by_old};
use crate::stop::ParseRefusal;
use cs_model::Op;

// Returns the bytes after a record, and whether the record is canonical. `outside` is the rule of
// the columns outside the key.
#[inline(always)]
fn skip_record<'a>(
    outside: FieldRule,
    flags: &[u8],
    bytes: &'a [u8],
) -> Result<(&'a [u8], bool), ParseRefusal>
    ensures read { Reads (λ x. x.0.now) result
        (bytes_after (record_at (map (column_rule (rule_of outside)) flags.now) bytes.now)) }
    ensures canonical { IfOk result (λ x. IsTrue x.1 → IsCanonical packed bytes.now
        (record_at (map (column_rule (rule_of outside)) flags.now) bytes.now)) }
{
    let mut rest = bytes;
    let mut canonical = true;
    for &flag in flags {
        let (_, after, so_far) = field_in(rule_by_flag(flag, outside), rest, canonical)?;
        canonical = so_far;
        rest = after;
    }
    Ok((rest, canonical))
}

// The same for an UPDATE's new record. The old record, which begins at `old`, gives its rules and
// is read again beside it.
#[inline(always)]
fn skip_new<'a>(flags: &[u8], old: &[u8], bytes: &'a [u8]) -> Result<(&'a [u8], bool), ParseRefusal>
    ensures read { (before : List Field) (left : List ℕ)
        → record_at (map old_rule flags.now) old.now ≡ Ok (before, left)
        → Reads (λ x. x.0.now) result
        (bytes_after (record_at (new_rules flags.now before) bytes.now)) }
    ensures canonical { (before : List Field) (left : List ℕ)
        → record_at (map old_rule flags.now) old.now ≡ Ok (before, left)
        → IfOk result (λ x. IsTrue x.1 → IsCanonical packed bytes.now
        (record_at (new_rules flags.now before) bytes.now)) }
{
    let mut old_rest = old;
    let mut rest = bytes;
    let mut canonical = true;
    for &flag in flags {
        let (field, old_after, _) = field_in(rule_by_flag(flag, FieldRule::Open), old_rest, true)?;
        let (_, after, so_far) = field_in(rule_by_old(flag, field.has_value()), rest, canonical)?;
        canonical = so_far;
        old_rest = old_after;
        rest = after;
    }
    Ok((rest, canonical))
}

/// Returns the bytes after a change's records, and whether these are canonical.
#[tactic(auto, unfolding(crate::specs::Reading::records_at))]
#[inline(always)]
pub fn skip_records<'a>(
    flags: &[u8],
    op: Op,
    bytes: &'a [u8],
) -> Result<(&'a [u8], bool), ParseRefusal>
    ensures read { Reads (λ x. x.0.now) result (bytes_after (records_at flags.now op bytes.now)) }
    ensures canonical { IfOk result (λ x. IsTrue x.1
        → IsCanonical both_packed bytes.now (records_at flags.now op bytes.now)) }
{
    match op {
        Op::Insert | Op::Delete => skip_record(FieldRule::Given, flags, bytes),
        Op::Update => {
            let (new, old_canonical) = skip_record(FieldRule::Open, flags, bytes)?;
            let (rest, new_canonical) = skip_new(flags, bytes, new)?;
            Ok((rest, both(old_canonical, new_canonical)))
        }
    }
}
