// What ends the sender's request, and the quick state: the first acknowledgement, a loss, giving up. A refused call leaves
// the connection's record as it was.
#![tactic(auto)]

ghost use Rattle.std.specs.Prelude.{◌≡◌};
ghost use Rattle.common.specs.Choice.{pick};
ghost use Rattle.refusals.specs.Reply.{answer, refuse};
ghost use Rattle.refusals.specs.Replies.{told};
ghost use Rattle.sender_rules.specs.Connections.Records.{in_range};
ghost use Rattle.sender_rules.specs.Sender.Calls.{back_to, sender_calls};

use connection::{MOST_BYTES, is_in_range};
use refusals::Refusal;
use sender_rules::{Connection, State};

// The state of a record that is in range.
fn state_of(connection: Connection) -> Result<State, Refusal>
    ensures { told result ≡ pick (in_range connection) (answer connection.state) (refuse 7) }
{
    if !is_in_range(connection) {
        return Err(Refusal::OutOfRange);
    }
    Ok(connection.state)
}

// The record idle again, with a window that is not above the one it had.
fn back(connection: Connection, window: u64) -> Connection
    ensures { result ≡ back_to connection window }
{
    Connection {
        state: State::Idle,
        window: connection.window.min(window),
        ..connection
    }
}

// The first acknowledgement while quick, with the bytes in flight: the window is the lesser of itself and the greater
// of flight and the window before.
pub fn first_acknowledgement(connection: &mut Connection, flight: u64) -> Result<(), Refusal>
    ensures answer { told result ≡ (sender_calls.acknowledged connection.old flight).said }
    ensures record { connection.new ≡ (sender_calls.acknowledged connection.old flight).left }
{
    if flight > MOST_BYTES {
        return Err(Refusal::OutOfRange);
    }
    let State::Quick(before) = state_of(*connection)? else {
        return Err(Refusal::WrongState);
    };
    *connection = back(*connection, flight.max(before.window));
    Ok(())
}

// A loss while quick: the window is the lesser of itself and the window before.
pub fn loss(connection: &mut Connection) -> Result<(), Refusal>
    ensures answer { told result ≡ (sender_calls.lost connection.old).said }
    ensures record { connection.new ≡ (sender_calls.lost connection.old).left }
{
    let State::Quick(before) = state_of(*connection)? else {
        return Err(Refusal::WrongState);
    };
    *connection = back(*connection, before.window);
    Ok(())
}

// Giving up the open request.
pub fn give_up(connection: &mut Connection) -> Result<(), Refusal>
    ensures answer { told result ≡ (sender_calls.gave_up connection.old).said }
    ensures record { connection.new ≡ (sender_calls.gave_up connection.old).left }
{
    let State::Asked(_) = state_of(*connection)? else {
        return Err(Refusal::WrongState);
    };
    connection.state = State::Idle;
    Ok(())
}
