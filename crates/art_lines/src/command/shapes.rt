//! What stands after a word, by its shape: a reader in place for each.
//!
//! A prefix is read as a key is, and so is the lower one of two bounds. The last field is not looked through for a
//! space, which is no digit.
ghost use Rattle.std.specs.Prelude.{◌≡◌, ◌+◌, ◌<◌, ◌≤◌, ◌∷◌, [], length, IfSome, IfNone, option_copied};
ghost use Rattle.art_lines.specs.declared.command.word.Shape.TheVariants.{Key, KeyAndValue, Number, NumberAndValue};
ghost use Rattle.art_lines.specs.declared.command.word.Shape.TheVariants.{TwoKeys, TwoNumbers};
ghost use Rattle.art_lines.specs.Commands.{fields_of};
ghost use Rattle.art_lines.specs.Reading.{fields_in};
ghost use Rattle.art_lines.specs.InPlace.{fields_after, IsRead};
ghost use Rattle.art_lines.specs.Parsed.{fields_in_place};

use crate::command::decimals::{split_number, split_tenant};
use crate::command::fields::Fields;
use crate::command::word::Shape;
use memchr::memchr;

/// Reads what stands after a word of this shape.
#[inline(always)]
pub(crate) fn read_fields(shape: Shape, rest: Option<&[u8]>, fields: &mut Fields) -> bool
    requires { IfSome rest (λ text. length text.now ≤ 4092) }
    ensures { IsRead result (fields_in_place shape fields.new)
        (fields_in shape (fields_after (option_copied rest.entry))) }
{
    let Some(text) = rest else {
        return matches!(shape, Shape::Nothing);
    };
    match shape {
        Shape::Key => read_key(text, fields),
        Shape::KeyAndValue => read_key_and_value(text, fields),
        Shape::TwoKeys => read_two_keys(text, fields),
        Shape::Number => read_number(text, fields),
        Shape::NumberAndValue => read_number_and_value(text, fields),
        Shape::TwoNumbers => read_two_numbers(text, fields),
        Shape::Tenant => fields.read_tenant(text),
        Shape::Nothing => false,
    }
}

/// Reads a tenant and a key.
#[inline(always)]
fn read_key(text: &[u8], fields: &mut Fields) -> bool
    requires { length text.now ≤ 4092 }
    ensures { IsRead result (fields_in_place Key fields.new) (fields_in Key (fields_of text.now)) }
{
    let Some((tenant, key)) = split_tenant(text) else {
        return false;
    };
    fields.set_tenant(tenant);
    fields.read_key(key)
}

/// Reads a tenant, a key and a value.
fn read_key_and_value(text: &[u8], fields: &mut Fields) -> bool
    requires { length text.now ≤ 4092 }
    ensures { IsRead result (fields_in_place KeyAndValue fields.new) (fields_in KeyAndValue (fields_of text.now)) }
{
    let Some((tenant, rest)) = split_tenant(text) else {
        return false;
    };
    let Some((key, value)) = split_once(rest) else {
        return false;
    };
    fields.set_tenant(tenant);
    if !fields.read_key(key) {
        return false;
    }
    fields.read_value(value)
}

/// Reads a tenant, a key and an upper bound.
fn read_two_keys(text: &[u8], fields: &mut Fields) -> bool
    requires { length text.now ≤ 4092 }
    ensures { IsRead result (fields_in_place TwoKeys fields.new) (fields_in TwoKeys (fields_of text.now)) }
{
    let Some((tenant, rest)) = split_tenant(text) else {
        return false;
    };
    let Some((low, high)) = split_once(rest) else {
        return false;
    };
    fields.set_tenant(tenant);
    if !fields.read_key(low) {
        return false;
    }
    fields.read_upper(high)
}

/// Reads a tenant and a number.
fn read_number(text: &[u8], fields: &mut Fields) -> bool
    ensures { IsRead result (fields_in_place Number fields.new) (fields_in Number (fields_of text.now)) }
{
    let Some((tenant, number)) = split_tenant(text) else {
        return false;
    };
    fields.set_tenant(tenant);
    fields.read_number(number)
}

/// Reads a tenant, a number and a value.
fn read_number_and_value(text: &[u8], fields: &mut Fields) -> bool
    requires { length text.now ≤ 4092 }
    ensures { IsRead result (fields_in_place NumberAndValue fields.new)
        (fields_in NumberAndValue (fields_of text.now)) }
{
    let Some((tenant, rest)) = split_tenant(text) else {
        return false;
    };
    let Some((number, value)) = split_number(rest) else {
        return false;
    };
    fields.set_tenant(tenant);
    fields.set_number(number);
    fields.read_value(value)
}

/// Reads a tenant and two numbers.
fn read_two_numbers(text: &[u8], fields: &mut Fields) -> bool
    ensures { IsRead result (fields_in_place TwoNumbers fields.new) (fields_in TwoNumbers (fields_of text.now)) }
{
    let Some((tenant, rest)) = split_tenant(text) else {
        return false;
    };
    let Some((low, high)) = split_number(rest) else {
        return false;
    };
    fields.set_tenant(tenant);
    fields.set_number(low);
    fields.read_bound(high)
}

/// Returns the field before the first space, and what stands after that space.
#[inline]
pub fn split_field(line: &[u8]) -> (&[u8], Option<&[u8]>)
    ensures split { fields_of line.now ≡ result.0.now ∷ fields_after (option_copied result.1) }
    ensures shorter { IfSome result.1 (λ rest. length result.0.now + 1 + length rest.now ≡ length line.now) }
    ensures whole { IfNone result.1 (result.0.now ≡ line.now) }
{
    match split_once(line) {
        Some((field, rest)) => (field, Some(rest)),
        None => (line, None),
    }
}

/// Returns what stands before the first space, and what stands after it.
#[inline(always)]
fn split_once(text: &[u8]) -> Option<(&[u8], &[u8])>
    ensures fields { IfSome result (λ parts. fields_of text.now ≡ parts.0.now ∷ fields_of parts.1.now) }
    ensures shorter { IfSome result (λ parts. length parts.0.now + 1 + length parts.1.now ≡ length text.now) }
    ensures one { IfNone result (fields_of text.now ≡ text.now ∷ []) }
{
    match memchr(b' ', text) {
        Some(i) => Some((&text[..i], &text[i + 1..])),
        None => None,
    }
}
