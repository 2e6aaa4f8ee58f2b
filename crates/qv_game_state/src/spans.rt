//! The blocks of a prefix, and the places of each.

ghost use Rattle.std.specs.Prelude.{◌≡◌, ◌<◌, ◌++◌, ◌∷◌, ◌+◌, ◌^◌, IfOk, List, Some};
ghost use Rattle.std.specs.Prelude.{map, option_map};
ghost use Rattle.qv_words.specs.Linked.{blocks_of};
ghost use Rattle.qv_words.specs.Problem.{Place as PlainPlace};
ghost use Rattle.qv_store.specs.Problems.{place_of, quantifier_of};
ghost use Rattle.qv_game_state.specs.Spans.{span_of, spans_from, spans_with};

use qv_store::{Place, Quant};
use std::alloc::{AllocError, Global};

/// A block: who owns it, and its places from the first one up to the end, which isn't among them.
#[derive(Clone, Copy)]
pub struct Span {
    pub owner: Quant,
    pub first: u64,
    pub end: u64,
}

// The blocks of a prefix in order.
pub(crate) fn spans_of(alloc: Global, prefix: &[Place]) -> Result<Vec<Span>, AllocError>
    ensures { IfOk result (λ spans. map span_of spans.items
        ≡ spans_from 0 (blocks_of (map place_of prefix.now))) }
{
    let mut spans = Vec::new(alloc);
    let mut last = None;
    'places: for (number, place) in prefix.iter().enumerate() {
        last = Some(add_place(&mut spans, last, place.quant, number as u64)?);
    }
    if let Some(span) = last {
        spans.push(span)?;
    }
    Ok(spans)
}

// One place more, where the last block goes up to it.
fn add_place(
    spans: &mut Vec<Span>,
    last: Option<Span>,
    owner: Quant,
    place: u64,
) -> Result<Span, AllocError>
    requires { place < 2 ^ 63 }
    ensures { IfOk result (λ next. (p : PlainPlace) (rest : List PlainPlace) →
        p.quantifier ≡ quantifier_of owner →
        map span_of spans.new.items ++ spans_with (place + 1) (Some (span_of next)) rest
        ≡ map span_of spans.old.items ++ spans_with place (option_map span_of last) (p ∷ rest)) }
{
    let next = Span {
        owner,
        first: place,
        end: place + 1,
    };
    let Some(span) = last else {
        return Ok(next);
    };
    if span.owner == owner {
        return Ok(Span {
            owner,
            first: span.first,
            end: place + 1,
        });
    }
    spans.push(span)?;
    Ok(next)
}
