//! Symbols are printed, and what they stand for.

ghost use Rattle.std.specs.Prelude.{◌≡◌, ◌++◌, OnOk};
ghost use Rattle.std.specs.List.{list_all};
ghost use Rattle.qv_text.specs.Bytes.{is_symbol};
ghost use Rattle.qv_words.specs.Sort.{IsLawful};
ghost use Rattle.qv_script_values.specs.Kept.{Keeps};
ghost use Rattle.qv_script_values.specs.SymbolText.{is_plain, is_simple, symbol_text, opening_text};
ghost use Rattle.qv_script_values.specs.SymbolText.{definition_text};

use crate::values::{push_sort, push_value};
use qv_text::{begins_symbol, is_reserved, is_symbol};
use qv_words::Sort;
use std::alloc::AllocError;

// Whether all of these bytes may stand in a simple symbol.
fn are_symbols(bytes: &[u8]) -> bool
    ensures { result ≡ list_all is_symbol bytes.now }
{
    bytes.iter().all(|byte| is_symbol(*byte))
}

// Whether a name is written as a simple symbol is.
fn is_plain(name: &[u8]) -> bool
    ensures { result ≡ is_plain name.now }
{
    match name.split_first() {
        None => false,
        Some((first, others)) => begins_symbol(*first) && are_symbols(others),
    }
}

// Whether a name is a simple symbol that isn't reserved.
fn is_simple(name: &[u8]) -> bool
    ensures { result ≡ is_simple name.now }
{
    is_plain(name) && !is_reserved(name)
}

/// Adds a name, between bars where it is no simple symbol or is reserved. Where memory runs out, a
/// part may be added.
pub fn push_symbol(name: &[u8], out: &mut Vec<u8>) -> Result<(), AllocError>
    ensures ok { OnOk result (out.new.items ≡ out.old.items ++ symbol_text name.now) }
    ensures kept { Keeps out.old.items out.new.items }
{
    if is_simple(name) {
        return out.extend_from_slice(name);
    }
    out.extend_from_slice(b"|")?;
    out.extend_from_slice(name)?;
    out.extend_from_slice(b"|")
}

// Adds what stands before the value where a name is defined: `(define-fun x () S`.
fn push_opening(name: &[u8], sort: Sort, out: &mut Vec<u8>) -> Result<(), AllocError>
    ensures ok { OnOk result (out.new.items ≡ out.old.items ++ opening_text name.now sort) }
    ensures kept { Keeps out.old.items out.new.items }
{
    out.extend_from_slice(b"(define-fun ")?;
    push_symbol(name, out)?;
    out.extend_from_slice(b" () ")?;
    push_sort(sort, out)
}

/// Adds the line that defines a name as a value: `(define-fun x () S v)`. Where memory runs out, a
/// part may be added.
pub fn push_definition(
    name: &[u8],
    sort: Sort,
    value: u128,
    out: &mut Vec<u8>,
) -> Result<(), AllocError>
    requires { IsLawful sort }
    ensures ok { OnOk result
        (out.new.items ≡ out.old.items ++ definition_text name.now sort value) }
    ensures kept { Keeps out.old.items out.new.items }
{
    push_opening(name, sort, out)?;
    out.extend_from_slice(b" ")?;
    push_value(sort, value, out)?;
    out.extend_from_slice(b")\n")
}
