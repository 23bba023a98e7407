//! What the definitions say of one another: a law is the contract of a function that only calls laws.
ghost use Rattle.mintc_slack_laws.specs.Existence.{SlacksExist};

use mintc_slack::room_is_slack;

/// Each system has a slack for each pair, or no schedule is right.
pub fn slacks_exist()
    ensures { SlacksExist }
{
    room_is_slack();
}
