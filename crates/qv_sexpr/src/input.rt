//! A source, token by token.

ghost use Rattle.std.specs.Prelude.{◌≡◌, ℕ, List, [], None, ◌<◌, ◌^◌, false, true, Some, IfOk};
ghost use Rattle.std.specs.Prelude.{OnOk, IfErr, OnErr, IfSome, IfNone, IsErrOf, option_map};
ghost use Rattle.std.specs.Prelude.{length};
ghost use Rattle.qv_io.specs.Count.{Rose};
ghost use Rattle.qv_text.specs.Progress.{fed, IsOpen};
ghost use Rattle.qv_text.specs.Reading.{ends, token_of};
ghost use Rattle.qv_sexpr.specs.Reader.{coming, FedGiven};
ghost use Rattle.qv_sexpr.specs.Input.{Leaves, TokenAlong, StopAlong, IsNear, TakesPiece, ReadStop};
ghost use Rattle.qv_sexpr.specs.Input.{GetsToken, StandsAhead, TokenStop, FeedsCall, DropsCall};
ghost use Rattle.qv_sexpr.specs.Calls.{EndsAsked, ReadsOnDemand};
ghost use Rattle.qv_sexpr.specs.Limits.{piece_size};

use crate::answers::Stop;
use qv_io::{LIMIT, PIECE, Source};
use qv_text::{Lexed, Lexer, Token, TokenKind};
use std::alloc::Global;

/// A lexer that is fed from a source as it wants bytes.
#[derive(Drop)]
pub(crate) struct Input {
    lexer: Lexer,
    /// How many bytes were taken of the source.
    taken: usize,
    ghost counted: { taken ≡ fed lexer },
    ghost small: { taken < 2 ^ 62 },
}

impl Input {
    pub(crate) fn new(alloc: Global) -> Input
        ensures { result.lexer ≡ record { place = 0; rest = []; finished = false; last = None } }
    {
        Input {
            lexer: Lexer::new(alloc),
            taken: 0,
        }
    }

    /// The next token, or `None` at the end of the source.
    pub(crate) fn next_token<S: Source>(&mut self, source: &mut S) -> Result<Option<Token>, Stop>
        ensures token { IfOk result
            (λ found. IfSome found (λ t. GetsToken (S.left source.old) self.old.lexer t
            (S.left source.new) self.new.lexer)) }
        ensures ahead { IfOk result
            (λ found. IfSome found (λ t. StandsAhead self.old.lexer t self.new.lexer)) }
        ensures end { IfOk result
            (λ found. IfNone found (IfSome (S.left source.old)
            (λ left. coming self.old.lexer left ≡ ends))) }
        ensures err { IfErr result
            (TokenStop (Rose (S.faults source.old) (S.faults source.new)) (S.left source.old)
            self.old.lexer self.new.lexer) }
        ensures near { IsNear self.old.lexer →
            IfOk result
            (λ found. IfSome found (λ t. IsNear self.new.lexer
            × (t.kind ≡ TokenKind.RightParen → length self.new.lexer.rest < piece_size))) }
        ensures given { OnOk result
            (FedGiven (S.left source.old) self.old.lexer (S.left source.new) self.new.lexer) }
        ensures given_limit { IsErrOf result Stop.ReadLimit →
            FedGiven (S.left source.old) self.old.lexer (S.left source.new) self.new.lexer }
        ensures leaves { Leaves S.left S.faults self.old.lexer source.old self.new.lexer
            source.new }
        ensures calls { IfOk result
            (λ found. IfSome found (λ t. EndsAsked S.read_gives self.old.lexer source.old
            (Lexed.Token t) self.new.lexer source.new)) }
        ensures calls_end { IfOk result
            (λ found. IfNone found (EndsAsked S.read_gives self.old.lexer source.old Lexed.End
            self.new.lexer source.new)) }
        ensures calls_err { IfErr result
            (λ stop. ReadsOnDemand S.read_gives self.old.lexer source.old (Some stop) self.new.lexer
            source.new) }
        ensures along { IfOk result
            (λ found. IfSome found (λ t. (bytes : List ℕ)
            × TokenAlong S.read_gives self.old.lexer source.old bytes t self.new.lexer
            source.new)) }
        ensures along_err { IfErr result
            (λ stop. StopAlong S.read_gives self.old.lexer source.old stop self.new.lexer
            source.new) }
    {
        'pieces: loop {
            match self.lexer.next() {
                Lexed::Token(token) => return Ok(Some(token)),
                Lexed::More => self.read_piece(source)?,
                Lexed::End => return Ok(None),
                Lexed::Fault(fault) => return Err(Stop::Lex(fault)),
            }
        }
    }

    /// The bytes of the token that came last.
    pub(crate) fn text(&self, token: &Token) -> &[u8]
        requires { option_map token_of self.now.lexer.last ≡ Some token.now }
        ensures { IfSome self.now.lexer.last (λ l. result.now ≡ l.text) }
    {
        self.lexer.text(token)
    }

    /// Feeds the lexer the next piece of the source, or tells it that the source is at its end.
    fn read_piece<S: Source>(&mut self, source: &mut S) -> Result<(), Stop>
        requires unfinished { self.old.lexer.finished ≡ false }
        // The source is called only here, where the lexer leaves open what is next.
        requires undecided { IsOpen self.old.lexer }
        ensures ok { OnOk result
            (TakesPiece (S.left source.old) self.old.lexer (S.left source.new) self.new.lexer) }
        ensures err { IfErr result
            (ReadStop (Rose (S.faults source.old) (S.faults source.new)) self.old.lexer) }
        ensures same { OnErr result (self.new.lexer ≡ self.old.lexer) }
        ensures leaves { Leaves S.left S.faults self.old.lexer source.old self.new.lexer
            source.new }
        ensures call { OnOk result
            (FeedsCall S.read_gives self.old.lexer source.old self.new.lexer source.new) }
        ensures call_err { IfErr result
            (λ stop. DropsCall S.read_gives source.old stop source.new) }
    {
        if self.taken >= LIMIT {
            return Err(Stop::ReadLimit);
        }
        let mut piece = [0; PIECE];
        let n = source.read(&mut piece)?;
        if n == 0 {
            self.lexer.finish();
        } else {
            self.lexer.feed(&piece[..n])?;
            self.taken += n;
        }
        Ok(())
    }
}
