ghost use Rattle.std.specs.Prelude.{◌≡◌, ◌≤◌, nat_abs, Some, None, All, IfOk, IfErr, OnOk};
ghost use Rattle.std.specs.List.{slice_get};
ghost use Rattle.hub_spec.specs.Limits.{most_nodes};
ghost use Rattle.file_spec.specs.Limits.{most_coordinate};
ghost use Rattle.file_spec.specs.Places.{a_size, a_quantity, an_index, a_coordinate, nothing};
ghost use Rattle.hub_model.specs.declared.faults.InstanceFault.TheVariants.{Missing};
ghost use Rattle.hub_model.specs.declared.faults.Wanted.TheVariants.{Token as of_token};
ghost use Rattle.token_reader.specs.Unread.{whole, later, fault_here, value_here, values_here, coordinate_here, has_ended, AreLegal, StoppedAt, told};

use crate::numbers::{read_coordinate, read_index, read_quantity, read_size};
use dec_text::Tokens;
use hub_model::{InstanceFault, Numbers, Refusal, Wanted};
use std::alloc::{AllocError, Global};
use std::marker::Model;

/// A cursor over the tokens of a file, seen as the unread rest.
#[derive(Drop)]
pub struct Reader<'a> {
    // The next token, which is looked ahead at, so that the end shows before it is read.
    ahead: Option<(usize, &'a [u8])>,
    tokens: Tokens<'a>,
    next: u64,
}

impl<'a> Model for Reader<'a> {
    ghost use Rattle.std.specs.Prelude.{◌+◌, ◌^◌, ◌≤◌, length};
    ghost use Rattle.dec_text.specs.Views.{tokens_left};
    ghost use Rattle.token_reader.specs.Unread.{Unread, from_ahead};

    ghost Value = { Unread };

    ghost view = { λ r. record { next = r.next; tokens = from_ahead (λ t. (t.0, t.1.now)) r.ahead (tokens_left r.tokens) } };

    ghost invariant = { λ r. r.next + length (from_ahead (λ t. (t.0, t.1.now)) r.ahead (tokens_left r.tokens)) ≤ 2 ^ 63 };
}

impl<'a> Reader<'a> {
    /// A cursor at the start of a file.
    pub fn over(bytes: &'a [u8]) -> Self
        ensures { result ≡ whole bytes.now }
    {
        let mut tokens = Tokens::over(bytes);
        let ahead = tokens.next();
        Reader {
            ahead,
            tokens,
            next: 1,
        }
    }

    /// Tells whether no token is left.
    #[tactic(auto, unfolding(crate::specs::Unread::has_ended))]
    pub fn is_at_end(&self) -> bool
        ensures { result ≡ has_ended self.now }
    {
        self.ahead.is_none()
    }

    /// Reads the next token as the number of nodes.
    #[tactic(auto, unfolding(crate::specs::Unread::fault_here, crate::specs::Unread::value_here))]
    pub fn size(&mut self) -> Result<u32, InstanceFault>
        ensures fault { told result ≡ fault_here a_size self.old }
        ensures value { IfOk result (λ n. n ≡ value_here 0 self.old) }
        ensures least { IfOk result (λ n. 1 ≤ n) }
        ensures limit { IfOk result (λ n. n ≤ most_nodes) }
        ensures moved { OnOk result (self.new ≡ later 1 self.old) }
    {
        let (at, token) = self.token()?;
        read_size(at, token)
    }

    /// Reads the next token as a number in units of 10^-places that is not negative and at most the limit.
    #[tactic(auto, unfolding(crate::specs::Unread::fault_here, crate::specs::Unread::value_here))]
    pub fn quantity(&mut self, places: u32, limit: u64) -> Result<u64, InstanceFault>
        requires { places ≤ 6 }
        ensures fault { told result ≡ fault_here (a_quantity places limit) self.old }
        ensures value { IfOk result (λ v. v ≡ value_here places self.old) }
        ensures limit { IfOk result (λ v. v ≤ limit) }
        ensures moved { OnOk result (self.new ≡ later 1 self.old) }
    {
        let (at, token) = self.token()?;
        read_quantity(at, token, places, limit)
    }

    /// Reads the next token as the number of a node, counted from 1 to `n`.
    #[tactic(auto, unfolding(crate::specs::Unread::fault_here, crate::specs::Unread::value_here))]
    pub fn index(&mut self, n: u32) -> Result<u32, InstanceFault>
        ensures fault { told result ≡ fault_here (an_index n) self.old }
        ensures value { IfOk result (λ k. k ≡ value_here 0 self.old) }
        ensures least { IfOk result (λ k. 1 ≤ k) }
        ensures limit { IfOk result (λ k. k ≤ n) }
        ensures moved { OnOk result (self.new ≡ later 1 self.old) }
    {
        let (at, token) = self.token()?;
        read_index(at, token, n)
    }

    /// Reads the next token as a coordinate, in 10^-6.
    #[tactic(auto, unfolding(crate::specs::Unread::fault_here, crate::specs::Unread::coordinate_here))]
    pub fn coordinate(&mut self) -> Result<i64, InstanceFault>
        ensures fault { told result ≡ fault_here a_coordinate self.old }
        ensures value { IfOk result (λ v. v ≡ coordinate_here self.old) }
        ensures limit { IfOk result (λ v. nat_abs v ≤ most_coordinate) }
        ensures moved { OnOk result (self.new ≡ later 1 self.old) }
    {
        let (at, token) = self.token()?;
        read_coordinate(at, token)
    }

    /// Reads the next m tokens as numbers in units of 10^-places that are not negative and at most the limit.
    pub fn quantities(
        &mut self,
        alloc: Global,
        m: u32,
        places: u32,
        limit: u64,
    ) -> Result<Numbers, Refusal>
        requires { places ≤ 6 }
        ensures legal { OnOk result (AreLegal (a_quantity places limit) m self.old) }
        ensures values { IfOk result (λ all. all ≡ values_here places m self.old) }
        ensures limits { IfOk result (All (λ v. v ≤ limit)) }
        ensures moved { OnOk result (self.new ≡ later m self.old) }
        ensures fault { IfErr result (StoppedAt (a_quantity places limit) m self.old) }
    {
        let mut items = Vec::with_capacity(alloc, m as usize)?;
        for _place in 0..m {
            let value = self.quantity(places, limit).map_err(Refusal::Fault)?;
            items.push(i128::from(value)).map_err(AllocError::from)?;
        }
        Ok(Numbers::from_vec(items))
    }

    /// Fails if a token is left.
    #[tactic(auto, unfolding(crate::specs::Unread::fault_here))]
    pub fn end(&self) -> Result<(), InstanceFault>
        ensures { told result ≡ fault_here nothing self.now }
    {
        match self.ahead {
            Some((at, _)) => Err(InstanceFault::Extra { at: at as u64 }),
            None => Ok(()),
        }
    }

    // The next token with its place, or the fault that it is missing.
    fn token(&mut self) -> Result<(u64, &'a [u8]), InstanceFault>
        ensures token { IfOk result (λ t. slice_get self.old.tokens 0 ≡ Some (t.0, t.1.now)) }
        ensures moved { OnOk result (self.new ≡ later 1 self.old) }
        ensures missing { IfErr result (λ f. (slice_get self.old.tokens 0 ≡ None) × (f ≡ Missing (of_token self.old.next))) }
    {
        let Some((at, token)) = self.ahead else {
            return Err(InstanceFault::Missing {
                what: Wanted::Token(self.next),
            });
        };
        self.ahead = self.tokens.next();
        self.next += 1;
        Ok((at as u64, token))
    }
}
