//! Designs as tables, and what is answered of the first.

/// Two latches in a ring, on two phases. Their least cycle time is 100.
pub const TWO_LATCHES: &str =
    "table 1\nphases 2\nphase phi1\nphase phi2\nelements 2\nelement a 1 10 - 10 10 0\nelement b 2 10 - 10 10 0\n\
     inner 0\narcs 2\narc q0 d1 20 20\narc q1 d0 60 60\nbounds 0\nend\n";

/// A right schedule of the two latches, with that cycle time.
pub const TWO_SCHEDULE: &str =
    "schedule 1\nden 1\ncycle 100\nphases 2\nphase 0 10\nphase 10 30\nend\n";

/// The certificate with that schedule.
pub const TWO_CERTIFICATE: &str =
    "certificate 2\nleast\nden 1\ncycle 100\nphases 2\nphase 0 10\nphase 10 30\ndepartures 2\ndeparture 0\n\
     departure 20\nchain 2\nreach 0 1 1 0\nreach 1 0 1 1\nend\n";

/// The two latches, with an inner bit on the way from the first to the second.
pub const TWO_THROUGH_INNER: &str =
    "table 1\nphases 2\nphase phi1\nphase phi2\nelements 2\nelement a 1 10 - 10 10 0\nelement b 2 10 - 10 10 0\n\
     inner 1\narcs 3\narc q0 n0 15 15\narc n0 d1 5 5\narc q1 d0 60 60\nbounds 0\nend\n";

/// The two latches, of which the first opens its output 4 after its phase's start.
pub const TWO_ENABLED: &str =
    "table 3\nphases 2\nphase phi1\nphase phi2\nelements 2\nelement a 1 latch 10 - 10 10 4 4 0\n\
     element b 2 latch 10 - 10 10 10 10 0\ninner 0\narcs 2\narc q0 d1 20 20\narc q1 d0 60 60\nbounds 0\nend\n";

/// Two flops in a ring, on one phase. Their least cycle time is 100.
pub const TWO_FLOPS: &str =
    "table 2\nphases 1\nphase p\nelements 2\nelement a 1 flop 5 - 10 10 0\nelement b 1 flop 5 - 10 10 0\ninner 0\n\
     arcs 2\narc q0 d1 85 85\narc q1 d0 35 35\nbounds 0\nend\n";

/// Two inner bits that lead to one another.
pub const CLOSED_INNER: &str =
    "table 1\nphases 1\nphase p\nelements 0\ninner 2\narcs 2\narc n0 n1 0 0\narc n1 n0 0 0\nbounds 0\nend\n";

/// An element whose one path has the greatest sum that there may be.
pub const GREATEST_SUM: &str =
    "table 1\nphases 1\nphase p\nelements 1\nelement a 1 0 - 0 0 0\ninner 1\narcs 2\n\
     arc q0 n0 1000000000 1000000000\narc n0 d0 0 0\nbounds 0\nend\n";

/// The same with a femtosecond more.
pub const SUM_PAST_LIMIT: &str =
    "table 1\nphases 1\nphase p\nelements 1\nelement a 1 0 - 0 0 0\ninner 1\narcs 2\n\
     arc q0 n0 1000000000 1000000000\narc n0 d0 1 1\nbounds 0\nend\n";

/// Two latches in a ring on one phase, of which the first holds for 18. Its least cycle time is 51/2, and 29 with
/// that hold kept.
pub const HELD: &str =
    "table 1\nphases 1\nphase p\nelements 2\nelement a 1 0 18 0 0 0\nelement b 1 0 - 0 0 0\ninner 0\narcs 2\n\
     arc q0 d1 31 31\narc q1 d0 20 20\nbounds 0\nend\n";

/// The same with a hold of 21, a femtosecond more than the delay of the path to it.
pub const HELD_TOO_LONG: &str =
    "table 1\nphases 1\nphase p\nelements 2\nelement a 1 0 21 0 0 0\nelement b 1 0 - 0 0 0\ninner 0\narcs 2\n\
     arc q0 d1 31 31\narc q1 d0 20 20\nbounds 0\nend\n";

/// The first two latches, and a path of 5 from the first one's output to its own input.
pub const OWN_LOOP: &str =
    "table 1\nphases 2\nphase phi1\nphase phi2\nelements 2\nelement a 1 10 - 10 10 0\nelement b 2 10 - 10 10 0\n\
     inner 0\narcs 3\narc q0 d1 20 20\narc q1 d0 60 60\narc q0 d0 5 5\nbounds 0\nend\n";

/// A latch whose pulse may be at most 75 000 wide, and has to be 80 000.
pub const HOPELESS: &str =
    "table 1\nphases 1\nphase pulse\nelements 1\nelement state 1 20000 - 40000 45000 80000\ninner 0\narcs 1\n\
     arc q0 d0 150000 200000\nbounds 2\nbound s1 e1 60000 0\nbound e1 s1 -75000 0\nend\n";
