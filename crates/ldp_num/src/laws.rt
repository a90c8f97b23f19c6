//! What a formula's runs in the carriers say of its value, and what the whole root is.
ghost use Rattle.ldp_num.specs.Laws.{PlainValue, PlainTold, PairValue, PairTold, WholeRoot};
ghost use Rattle.ldp_num.specs.Laws.{SlopeValue, SlopeTold, SlopeBack, TwinValue, TwinTold};
ghost use Rattle.ldp_num.specs.Ring.{TimesAssociate, TimesSwap, TimesSum, SumTimes};
ghost use Rattle.ldp_num.specs.Ring.{TimesDifference, TimesNegated, TimesUp, TimesDown, TimesCancel};
ghost use Rattle.ldp_num.specs.Ring.{FloorIs};

/// A run over plain numbers is a run over the numbers that they mean, and tells it.
pub fn plain_values()
    ensures value { PlainValue }
    ensures told { PlainTold }
{}

/// A run over ranges is a run over the pairs that they mean, and tells it.
pub fn pair_values()
    ensures value { PairValue }
    ensures told { PairTold }
{}

/// A run over items of slopes is a run over the records that they mean, and tells it; and no two
/// records are meant by one list.
pub fn slope_values()
    ensures value { SlopeValue }
    ensures told { SlopeTold }
    ensures back { SlopeBack }
{}

/// A run over twins is a run over the pairs of pairs that they mean, and tells it.
pub fn twin_values()
    ensures value { TwinValue }
    ensures told { TwinTold }
{}

/// How sums and products of whole numbers go together.
pub fn whole_products()
    ensures associate { TimesAssociate }
    ensures swap { TimesSwap }
    ensures sum { TimesSum }
    ensures sum_first { SumTimes }
    ensures difference { TimesDifference }
    ensures negated { TimesNegated }
{}

/// The order of products of whole numbers.
pub fn order_of_products()
    ensures up { TimesUp }
    ensures down { TimesDown }
    ensures cancel { TimesCancel }
{}

/// What a quotient that is rounded down is.
pub fn whole_quotients()
    ensures { FloorIs }
{}

/// The root of a number is the greatest whose square is at most the number.
pub fn whole_root()
    ensures { WholeRoot }
{}
