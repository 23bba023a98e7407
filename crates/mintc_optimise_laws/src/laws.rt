//! What the definitions say of one another: each law is the contract of a function that does nothing.
ghost use Rattle.mintc_optimise_laws.specs.Existence.{OptimaExist};

/// Each system has an optimum: a valid certificate of its least cycle time, or one that no schedule is right.
pub fn optima_exist()
    ensures { OptimaExist }
{}
