//! How answers are written.

use qv_cases_rows::Answer;
use qv_sexpr::{Expr, Item, ItemKind, Next, ParseKind};
use qv_text::{LexKind, TokenKind};

pub fn kind_name(kind: TokenKind) -> &'static str {
    match kind {
        TokenKind::LeftParen => "(",
        TokenKind::RightParen => ")",
        TokenKind::Symbol => "symbol",
        TokenKind::Reserved => "reserved",
        TokenKind::Keyword => "keyword",
        TokenKind::Numeral => "numeral",
        TokenKind::Decimal => "decimal",
        TokenKind::Hex => "hex",
        TokenKind::Binary => "binary",
        TokenKind::Text => "string",
    }
}

/// The name of a fault, as a run prints it.
pub fn fault_name(kind: LexKind) -> &'static str {
    match kind {
        LexKind::Character => "character",
        LexKind::Text => "string",
        LexKind::QuotedSymbol => "quoted symbol",
        LexKind::Numeral => "numeral",
        LexKind::Literal => "literal",
    }
}

/// Says bytes between quotes, those that can't be seen by their numbers.
pub fn say_bytes(out: &mut Answer, bytes: &[u8]) {
    out.say("\"");
    for byte in bytes {
        say_byte(out, *byte);
    }
    out.say("\"");
}

fn say_byte(out: &mut Answer, byte: u8) {
    match byte {
        b' '..=91 | 93..=b'~' => out.put(char::from(byte)),
        _ => out.escape(byte),
    }
}

fn say_item(out: &mut Answer, item: &Item, text: &[u8]) {
    match item.kind {
        ItemKind::Open { close } => say_open(out, item.place, close),
        ItemKind::Close => {
            out.say(")@");
            out.show(item.place);
        }
        ItemKind::Atom(kind) => {
            out.say(kind_name(kind));
            out.say("@");
            out.show(item.place);
            out.say(" ");
            say_own(out, text.get(item.start as usize..item.end as usize));
        }
    }
    out.say(" ");
    out.show(item.start);
    out.say("-");
    out.show(item.end);
}

fn say_open(out: &mut Answer, place: u64, close: u64) {
    out.say("(@");
    out.show(place);
    out.say(" to ");
    out.show(close);
}

fn say_own(out: &mut Answer, own: Option<&[u8]>) {
    match own {
        Some(bytes) => say_bytes(out, bytes),
        None => out.refuse(),
    }
}

/// Says an expression's items and its text.
pub fn say_expr(out: &mut Answer, expr: &Expr) {
    for item in &expr.items {
        say_item(out, item, &expr.text);
        out.say(", ");
    }
    say_bytes(out, &expr.text);
}

/// Says a reader's answer; of a command the number of its items alone, where `is_short` holds.
pub fn say_answer(out: &mut Answer, next: &Next, is_short: bool) {
    match next {
        Next::Command(expr) => say_command(out, expr, is_short),
        Next::End => out.say("end"),
        Next::ReadFault => out.say("read fault"),
        Next::ReadLimit => out.say("read limit"),
        Next::Lex(fault) => say_fault(out, fault_name(fault.kind), fault.place),
        Next::Parse(fault) => say_fault(out, parse_name(fault.kind), fault.place),
        Next::NestingLimit { place } => say_fault(out, "nesting limit", *place),
        Next::NoMemory => out.refuse(),
    }
}

fn say_command(out: &mut Answer, expr: &Expr, is_short: bool) {
    if is_short {
        out.show(expr.items.len());
        out.say(" items");
    } else {
        out.say("[");
        say_expr(out, expr);
        out.say("]");
    }
}

/// Says a fault and its place.
pub fn say_fault(out: &mut Answer, name: &str, place: u64) {
    out.say(name);
    out.say(" at ");
    out.show(place);
}

fn parse_name(kind: ParseKind) -> &'static str {
    match kind {
        ParseKind::Close => "close",
        ParseKind::Atom => "atom",
        ParseKind::Unfinished => "unfinished",
    }
}
