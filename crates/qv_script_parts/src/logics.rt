//! The logics by their names.

ghost use Rattle.std.specs.Prelude.{◌≡◌};
ghost use Rattle.qv_script_defs.specs.Logics.{without, without_arrays, is_arithmetic};
ghost use Rattle.qv_script_defs.specs.Logics.{is_of_bits, is_all, is_logic};

// A name without a word in front of it, where it stands there.
fn without<'a>(word: &[u8], name: &'a [u8]) -> &'a [u8]
    ensures { result.now ≡ without word.now name.now }
{
    match name.strip_prefix(word) {
        Some(rest) => rest,
        None => name,
    }
}

// The same of arrays, with extensionality or not.
fn without_arrays(name: &[u8]) -> &[u8]
    ensures { result.now ≡ without_arrays name.now }
{
    match name.strip_prefix(b"AX") {
        Some(rest) => rest,
        None => without(b"A", name),
    }
}

// Nothing, or one of the theories of numbers.
fn is_arithmetic(name: &[u8]) -> bool
    ensures { result ≡ is_arithmetic name.now }
{
    name == b"".as_slice()
        || name == b"LIA".as_slice()
        || name == b"LRA".as_slice()
        || name == b"LIRA".as_slice()
        || name == b"NIA".as_slice()
        || name == b"NRA".as_slice()
        || name == b"NIRA".as_slice()
        || name == b"IDL".as_slice()
        || name == b"RDL".as_slice()
}

// BV, and behind it theories in the standard's order.
fn is_of_bits(name: &[u8]) -> bool
    ensures { result ≡ is_of_bits name.now }
{
    match name.strip_prefix(b"BV") {
        Some(rest) => is_arithmetic(without(b"S", without(b"DT", without(b"FP", rest)))),
        None => false,
    }
}

// A name for all theories.
fn is_all(name: &[u8]) -> bool
    ensures { result ≡ is_all name.now }
{
    name == b"ALL".as_slice() || name == b"ALL_SUPPORTED".as_slice()
}

/// Whether a logic has this name.
pub fn is_logic(name: &[u8]) -> bool
    ensures { result ≡ is_logic name.now }
{
    if is_all(name) {
        return true;
    }
    is_of_bits(without(b"UF", without_arrays(without(b"QF_", name))))
}
