//! What stands between two parentheses of an expression, as far as it is read.
ghost use Rattle.std.specs.Prelude.{◌≡◌, false, Some, None, option_map};
ghost use Rattle.mintc_senses_expressions.specs.Reading.{on_senses, joined, difference_of, product_of, sum_of, waiting};
ghost use Rattle.mintc_senses_expressions.specs.Reading.{past_difference, past_product, past_sum, ready, turned_if};
ghost use Rattle.mintc_senses_expressions.specs.Reading.{with_operand, inverting, priming, level_step};
ghost use Rattle.mintc_senses_expressions.specs.Seen.{level_seen};

use crate::signs::Sign;
use crate::transitions::Transitions;

/// The senses of a name in what stands so far between two parentheses: before the last or, behind it before the last
/// and, behind that before the last exclusive or; whether an odd number of `!` follow; and in the operand, if there
/// is one already.
#[derive(Clone, Copy)]
pub(crate) struct Level {
    sums: Option<Transitions>,
    products: Option<Transitions>,
    differing: Option<Transitions>,
    inverts: bool,
    operand: Option<Transitions>,
}

/// Senses put together with those before them.
fn joined(before: Option<Transitions>, operand: Transitions) -> Transitions
    ensures { result ≡ joined on_senses.meet before operand }
{
    match before {
        Some(before) => before.with(operand),
        None => operand,
    }
}

impl Level {
    /// Before an operand.
    fn waiting(
        sums: Option<Transitions>,
        products: Option<Transitions>,
        differing: Option<Transitions>,
        inverts: bool,
    ) -> Level
        ensures { level_seen result ≡ waiting sums products differing inverts }
    {
        Level {
            sums,
            products,
            differing,
            inverts,
            operand: None,
        }
    }

    /// Where nothing stands yet.
    pub(crate) fn empty() -> Level
        ensures { level_seen result ≡ waiting None None None false }
    {
        Level::waiting(None, None, None, false)
    }

    /// What an operand is with all before it up to the last and.
    fn difference_of(self, operand: Transitions) -> Transitions
        ensures { result ≡ difference_of on_senses (level_seen self) operand }
    {
        match self.differing {
            Some(before) => before.with(operand).all_if_some(),
            None => operand,
        }
    }

    /// The same up to the last or.
    fn product_of(self, operand: Transitions) -> Transitions
        ensures { result ≡ product_of on_senses (level_seen self) operand }
    {
        joined(self.products, self.difference_of(operand))
    }

    /// The same up to the parenthesis.
    fn sum_of(self, operand: Transitions) -> Transitions
        ensures { result ≡ sum_of on_senses (level_seen self) operand }
    {
        joined(self.sums, self.product_of(operand))
    }

    /// What stands between the parentheses, where an operand is the last of it.
    pub(crate) fn sum(self) -> Option<Transitions>
        ensures { result ≡ option_map (sum_of on_senses (level_seen self)) (level_seen self).operand }
    {
        match self.operand {
            Some(operand) => Some(self.sum_of(operand)),
            None => None,
        }
    }

    /// Behind an exclusive or.
    fn past_difference(self, operand: Transitions) -> Level
        ensures { level_seen result ≡ past_difference on_senses (level_seen self) operand }
    {
        Level::waiting(
            self.sums,
            self.products,
            Some(self.difference_of(operand)),
            false,
        )
    }

    /// Behind an and.
    fn past_product(self, operand: Transitions) -> Level
        ensures { level_seen result ≡ past_product on_senses (level_seen self) operand }
    {
        Level::waiting(self.sums, Some(self.product_of(operand)), None, false)
    }

    /// Behind an or.
    fn past_sum(self, operand: Transitions) -> Level
        ensures { level_seen result ≡ past_sum on_senses (level_seen self) operand }
    {
        Level::waiting(Some(self.sum_of(operand)), None, None, false)
    }

    /// Before a further operand: where one stands already, there is an and between them.
    pub(crate) fn ready(self) -> Level
        ensures { level_seen result ≡ ready on_senses (level_seen self) }
    {
        match self.operand {
            Some(operand) => self.past_product(operand),
            None => self,
        }
    }

    /// With an operand.
    pub(crate) fn with_operand(self, operand: Transitions) -> Level
        ensures { level_seen result ≡ with_operand on_senses (level_seen self) operand }
    {
        let operand = if self.inverts {
            operand.turned()
        } else {
            operand
        };
        Level {
            sums: self.sums,
            products: self.products,
            differing: self.differing,
            inverts: false,
            operand: Some(operand),
        }
    }

    /// With one more `!`.
    fn inverting(self) -> Level
        ensures { level_seen result ≡ inverting (level_seen self) }
    {
        Level::waiting(self.sums, self.products, self.differing, !self.inverts)
    }

    /// With a `'`.
    fn priming(self, operand: Transitions) -> Level
        ensures { level_seen result ≡ priming on_senses (level_seen self) operand }
    {
        Level {
            sums: self.sums,
            products: self.products,
            differing: self.differing,
            inverts: false,
            operand: Some(operand.turned()),
        }
    }

    /// Behind a sign that is no parenthesis, where one may stand there.
    pub(crate) fn behind(self, sign: Sign) -> Option<Level>
        ensures { option_map level_seen result ≡ level_step on_senses sign (level_seen self) }
    {
        if let Sign::Inversion = sign {
            return Some(self.ready().inverting());
        }
        let Some(operand) = self.operand else {
            return None;
        };
        match sign {
            Sign::Prime => Some(self.priming(operand)),
            Sign::Exclusive => Some(self.past_difference(operand)),
            Sign::Conjunction => Some(self.past_product(operand)),
            Sign::Disjunction => Some(self.past_sum(operand)),
            _ => None,
        }
    }
}
