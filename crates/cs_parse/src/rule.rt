//! The rules for a field's type byte, by column and record, and the faults of a byte that breaks
//! them.

ghost use Rattle.std.specs.Prelude.{◌≡◌, ℕ, is_none};
ghost use Rattle.cs_model.specs.Rule.{new_rule};
ghost use Rattle.cs_model.specs.declared.value.Field.{Field};
ghost use Rattle.cs_model.specs.Rule.{is_defined};
ghost use Rattle.cs_parse.specs.FieldRules.{rule_of, column_rule};
ghost use Rattle.cs_parse.specs.Place.{type_refusal};

use crate::fault::FaultKind;

/// What a field may be, by its column and its record.
#[derive(Clone, Copy)]
pub enum FieldRule {
    /// A value that isn't NULL: a key column.
    Key,
    /// Any value, NULL included: the one record of an INSERT or a DELETE.
    Given,
    /// Any value or undefined: the old record of an UPDATE.
    Open,
    /// Undefined: a key column in an UPDATE's new record.
    Blank,
    /// A value, because the UPDATE's old record has one.
    Both,
    /// Undefined, because the UPDATE's old record has no value.
    Neither,
}

/// The rule of a column by its key flag; `outside` is the rule of a column outside the key.
pub fn rule_by_flag(flag: u8, outside: FieldRule) -> FieldRule
    ensures { rule_of result ≡ column_rule (rule_of outside) flag }
{
    if flag == 0 { outside } else { FieldRule::Key }
}

/// The rule of a column in an UPDATE's new record, by its key flag and whether the old record has a
/// value.
pub fn rule_by_old(flag: u8, has_value: bool) -> FieldRule
    ensures { (byte : ℕ) (old : Field) → is_defined old ≡ has_value
        → type_refusal (rule_of result) byte ≡ type_refusal (new_rule flag old) byte }
{
    if flag != 0 {
        return FieldRule::Blank;
    }
    if has_value {
        FieldRule::Both
    } else {
        FieldRule::Neither
    }
}

// whether an INTEGER is valid under a rule
fn admits_integer(rule: FieldRule) -> bool
    ensures { result ≡ is_none (type_refusal (rule_of rule) 1) }
{
    !matches!(rule, FieldRule::Blank | FieldRule::Neither)
}

/// The fault of a type byte under a rule, if it has one.
pub fn type_fault(rule: FieldRule, byte: u8) -> Option<FaultKind>
    ensures { result ≡ type_refusal (rule_of rule) byte }
{
    // most fields are INTEGERs
    if byte == 1 && admits_integer(rule) {
        return None;
    }
    if byte > 5 {
        return Some(FaultKind::BadType);
    }
    if byte == 2 {
        return Some(FaultKind::Real);
    }
    let undefined = byte == 0;
    match rule {
        FieldRule::Key => (undefined || byte == 5).then_some(FaultKind::KeyMissing),
        FieldRule::Given => undefined.then_some(FaultKind::UndefinedField),
        FieldRule::Open => None,
        FieldRule::Blank => (!undefined).then_some(FaultKind::KeyChanged),
        FieldRule::Both => undefined.then_some(FaultKind::OneSided),
        FieldRule::Neither => (!undefined).then_some(FaultKind::OneSided),
    }
}
