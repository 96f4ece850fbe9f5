//! The text of JSON, a token at a time, with a line for each item and member.
ghost use Rattle.std.specs.Prelude.{◌≡◌, ◌++◌, ◌∷◌, [], nat_lt, IfOk, OnOk, string_bytes};
ghost use Rattle.json.specs.Layout.{pretty};
ghost use Rattle.json.specs.Lex.{tokens};
ghost use Rattle.json.specs.Print.{IsPrintable};
ghost use Rattle.json.specs.Reads.{token_of};
ghost use Rattle.sarif_model.specs.Limits.{most_bytes};
ghost use Rattle.sarif_known.specs.Internal.Tokens.{least_bytes, own_bytes};

use json::{Pretty, Token};
use sarif_model::MOST_BYTES;
use std::alloc::{AllocError, Global};
use std::marker::Model;

/// JSON that grows by tokens. Contracts see the tokens.
#[derive(Drop)]
pub(crate) struct Lines {
    out: Pretty,
    /// How many bytes the tokens have at least, as far as a `usize` goes.
    least: usize,
}

impl Model for Lines {
    ghost use Rattle.std.specs.Prelude.{◌≡◌, ◌-◌, ◌^◌, List, min};
    ghost use Rattle.json.specs.Token.{Token as SpecToken, tokens_code};
    ghost use Rattle.sarif_known.specs.Internal.Tokens.{least_bytes};

    ghost Value = { List SpecToken };

    ghost coded = { tokens_code };

    ghost view = { λ l. l.out };

    ghost invariant = { λ l. l.least ≡ min (least_bytes l.out) (2 ^ 64 - 1) };
}

/// How many bytes a token has at least.
fn bytes_of(token: Token<'_>) -> usize
    ensures { result ≡ own_bytes (token_of token.entry) }
{
    match token {
        Token::Key(text) => text.len(),
        Token::String(text) => text.len(),
        Token::Number(text) => text.len(),
        Token::Bad => 0,
        _ => 1,
    }
}

impl Lines {
    /// No tokens.
    pub(crate) fn new(alloc: Global) -> Lines
        ensures { result ≡ [] }
    {
        Lines {
            out: Pretty::new(alloc),
            least: 0,
        }
    }

    /// Adds a token.
    pub(crate) fn token(&mut self, token: Token<'_>) -> Result<(), AllocError>
        requires { IsPrintable (token_of token) }
        ensures { OnOk result (self.new ≡ self.old ++ token_of token.entry ∷ []) }
    {
        let more = bytes_of(token);
        self.out.token(token)?;
        self.least = self.least.saturating_add(more);
        Ok(())
    }

    /// Whether the tokens alone have too many bytes, without what is between them and escaped.
    #[tactic(auto, using(crate::proofs::Lengths::capped))]
    pub(crate) fn is_long(&self) -> bool
        ensures { result ≡ nat_lt most_bytes (least_bytes self.now) }
    {
        self.least > MOST_BYTES
    }

    /// The text.
    pub(crate) fn into_text(self) -> Result<String, AllocError>
        ensures text { IfOk result (λ text. string_bytes text ≡ pretty self) }
        ensures tokens { IfOk result (λ text. tokens (string_bytes text) ≡ self) }
    {
        match String::from_utf8(self.out.into_inner()) {
            Ok(text) => Ok(text),
            Err(_) => unreachable!(),
        }
    }
}
