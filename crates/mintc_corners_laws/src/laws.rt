//! What the definitions say of one another: each law is the contract of a function that does nothing.
ghost use Rattle.mintc_corners_laws.specs.Existence.{JointOptimaExist};

/// A few systems that differ in numbers alone have a joint optimum: a certificate of their joint cycle, or one that
/// there is none.
pub fn joint_optima_exist()
    ensures { JointOptimaExist }
{}
