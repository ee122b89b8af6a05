//! Reading a query token by token.
ghost use Rattle.std.specs.Prelude.{◌≡◌, [], ◌∷◌, ◌++◌, ℕ, None, Some, Ok, IfOk, OnOk, IfSome, IfNone, IsErrOf, Err, option_map, length, ◌<◌, true, false};
ghost use Rattle.query_lang.specs.Stacks.{open_count, is_even, Stacks, taken, settled, begun, opening, joined, ended, laid_from, wanting, holding, Moves};

use crate::error::QueryError;
use crate::kind::Kind;
use crate::op::Op;
use crate::pile::Pile;
use crate::term::Term;
use crate::token::{Placed, Token};
use std::alloc::{AllocError, Global};
use std::marker::Model;

/// The most `not` and `(` that may be open at once.
const MOST_OPEN: usize = 64;

/// How far a query was read: what waits for a factor, the operators laid down so far, and whether a
/// factor has just ended.
#[derive(Debug, Drop)]
struct Reader {
    kinds: Pile<Kind>,
    laid: Vec<Op<Term>>,
    holds: bool,
}

impl Model for Reader {
    ghost use Rattle.query_lang.specs.Stacks.{Stacks};

    ghost Value = { Stacks };

    ghost view = { λ r. record { kinds = r.kinds; laid = r.laid.items; holds = r.holds } };
}

impl Reader {
    fn new(alloc: Global) -> Reader
        ensures { result ≡ wanting [] [] }
    {
        Reader {
            kinds: Pile::new(alloc),
            laid: Vec::new(alloc),
            holds: false,
        }
    }

    /// How many `not` and `(` are open. There are at most 64, and on each level an `and` and an `or`.
    fn open_count(&self) -> usize
        ensures { result ≡ open_count self.now.kinds }
    {
        let mut count = 0;
        for kind in self.kinds.as_slice() {
            match kind {
                Kind::AfterNot | Kind::AfterOpen => count += 1,
                Kind::AfterAnd | Kind::AfterOr => {}
            }
        }
        count
    }

    /// Whether an even number of `not` is open.
    fn is_even(&self) -> bool
        ensures { result ≡ is_even self.now.kinds }
    {
        let mut even = true;
        for kind in self.kinds.as_slice() {
            if *kind == Kind::AfterNot {
                even = !even;
            }
        }
        even
    }

    fn lay(&mut self, op: Op<Term>) -> Result<(), AllocError>
        ensures { OnOk result (self.new ≡ record self.old { laid = self.old.laid ++ op ∷ [] }) }
    {
        self.laid.push(op)?;
        Ok(())
    }

    /// The operator of a `not` or an `and` that a factor ends, which is taken off.
    fn ending(&mut self) -> Option<Op<Term>>
        ensures kinds { IfSome result (λ op. settled self.old.kinds self.old.laid ≡ settled self.new.kinds (self.new.laid ++ op ∷ [])) }
        ensures less { IfSome result (λ _. length self.new.kinds < length self.old.kinds) }
        ensures none { IfNone result (settled self.old.kinds self.old.laid ≡ holding self.new.kinds self.new.laid) }
    {
        let op = match self.kinds.top() {
            Some(Kind::AfterNot) => Op::Negate,
            Some(Kind::AfterAnd) => Op::Conjoin,
            _ => return None,
        };
        let _ = self.kinds.pop();
        Some(op)
    }

    /// A factor has ended: it ends each `not` before it, and is joined to what stands on its left.
    fn settle(&mut self) -> Result<(), AllocError>
        ensures { OnOk result (self.new ≡ settled self.old.kinds self.old.laid) }
    {
        while let Some(op) = self.ending() {
            self.lay(op)?;
        }
        self.holds = true;
        Ok(())
    }

    /// A factor begins: behind another it is joined to that.
    fn begin(&mut self) -> Result<(), AllocError>
        ensures { OnOk result (self.new ≡ wanting (begun self.old) self.old.laid) }
    {
        if self.holds {
            self.kinds.push(Kind::AfterAnd)?;
        }
        self.holds = false;
        Ok(())
    }

    fn word(&mut self, term: Term) -> Result<(), AllocError>
        ensures { OnOk result (self.new ≡ settled (begun self.old)
            (self.old.laid ++ Op.Push term (is_even self.old.kinds) ∷ [])) }
    {
        let even = self.is_even();
        self.begin()?;
        self.lay(Op::Push(term, even))?;
        self.settle()
    }

    /// One more is open, where 64 aren't open before.
    fn opens(&mut self, kind: Kind) -> Result<bool, AllocError>
        ensures { IfOk result (λ moved. Moves (opening kind self.old) moved self.new) }
    {
        if self.open_count() >= MOST_OPEN {
            return Ok(false);
        }
        self.begin()?;
        self.kinds.push(kind)?;
        Ok(true)
    }

    /// An `or` that waits on top is done.
    fn join(&mut self) -> Result<(), AllocError>
        requires { self.old.holds ≡ true }
        ensures { OnOk result (self.new ≡ joined self.old.kinds self.old.laid) }
    {
        if self.kinds.top() == Some(Kind::AfterOr) {
            let _ = self.kinds.pop();
            self.lay(Op::Disjoin)?;
        }
        Ok(())
    }

    fn closes(&mut self) -> Result<bool, AllocError>
        ensures { IfOk result (λ moved. Moves (taken self.old Token.Close) moved self.new) }
    {
        if !self.holds {
            return Ok(false);
        }
        self.join()?;
        if self.kinds.top() != Some(Kind::AfterOpen) {
            return Ok(false);
        }
        let _ = self.kinds.pop();
        self.settle()?;
        Ok(true)
    }

    fn and(&mut self) -> Result<bool, AllocError>
        ensures { IfOk result (λ moved. Moves (taken self.old Token.And) moved self.new) }
    {
        if !self.holds {
            return Ok(false);
        }
        self.begin()?;
        Ok(true)
    }

    fn or(&mut self) -> Result<bool, AllocError>
        ensures { IfOk result (λ moved. Moves (taken self.old Token.Or) moved self.new) }
    {
        if !self.holds {
            return Ok(false);
        }
        if self.kinds.top() == Some(Kind::AfterOr) {
            self.lay(Op::Disjoin)?;
        } else {
            self.kinds.push(Kind::AfterOr)?;
        }
        self.holds = false;
        Ok(true)
    }

    /// Goes on by a token, and says whether some query goes on so.
    fn take(&mut self, token: &Token) -> Result<bool, AllocError>
        ensures { IfOk result (λ moved. Moves (taken self.old token.now) moved self.new) }
    {
        match token {
            Token::Word(term) => {
                self.word(term.copied()?)?;
                Ok(true)
            }
            Token::Not => self.opens(Kind::AfterNot),
            Token::Open => self.opens(Kind::AfterOpen),
            Token::Close => self.closes(),
            Token::And => self.and(),
            Token::Or => self.or(),
            Token::Wordless => Ok(false),
        }
    }

    /// The operators, where the query may end here.
    fn end(mut self) -> Result<Option<Vec<Op<Term>>>, AllocError>
        ensures { IfOk result (λ laid. option_map (λ v. v.items) laid ≡ ended self) }
    {
        if !self.holds {
            return Ok(None);
        }
        self.join()?;
        if self.kinds.top().is_some() {
            return Ok(None);
        }
        Ok(Some(self.laid))
    }
}

/// The operators of a query in postfix form, of which these are the tokens; `end` is the place
/// behind them. Each token costs at most as many steps as there may be waiting, which are below 200.
pub(crate) fn laid_of(
    alloc: Global,
    tokens: &[Placed],
    end: usize,
) -> Result<Vec<Op<Term>>, QueryError>
    ensures laid { IfOk result (λ v. laid_from end (wanting [] []) tokens.now ≡ Ok v.items) }
    ensures bad { (at : ℕ) → IsErrOf result (QueryError.BadQuery at)
        → laid_from end (wanting [] []) tokens.now ≡ Err at }
{
    let mut reader = Reader::new(alloc);
    for placed in tokens {
        if !reader.take(&placed.token)? {
            return Err(QueryError::BadQuery {
                at: placed.at as u64,
            });
        }
    }
    match reader.end()? {
        Some(laid) => Ok(laid),
        None => Err(QueryError::BadQuery { at: end as u64 }),
    }
}
