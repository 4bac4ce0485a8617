// What a host does with a packet that was forwarded to it.
ghost use Rattle.std.specs.Prelude.{◌≡◌};
ghost use Rattle.connector.specs.Views.{SetUpStays};
ghost use Rattle.example_host.specs.Delivery.{Offered, Delivered, SentAndTicked};

use crate::link::Link;
use condition::interface::ConditionHash;
use connector::connector::Connector;
use connector::duty::SendDuty;
use protocol::ended::Ended;
use protocol::refusal::Refusal;
use stage::interface::Stage;

// Offers a packet to its link, and where that takes it says so. Where the link is full the duty comes back: it stays in
// hand, and is spent later.
pub fn offer<S: Stage, H: ConditionHash, L: Link>(
    connector: &mut Connector<S, H>,
    link: &mut L,
    duty: SendDuty,
    packet: &[u8],
) -> Result<Option<SendDuty>, Refusal>
    ensures does { Offered S.held (L.takes link.old packet.now) connector.old duty result connector.new }
    ensures kept { SetUpStays connector.old connector.new }
{
    if !link.offer(packet) {
        return Ok(Some(duty));
    }
    connector.sent(duty)?;
    Ok(None)
}

// Offers a packet so many times, and says that it was not sent where the link stays full. Gives the end of the packet then.
pub fn deliver<S: Stage, H: ConditionHash, L: Link>(
    connector: &mut Connector<S, H>,
    link: &mut L,
    duty: SendDuty,
    packet: &[u8],
    tries: usize,
    buffer: &mut [u8],
) -> Result<Option<Ended>, Refusal>
    ensures does { Delivered S.held connector.old duty.number buffer.old result connector.new buffer.new }
    ensures kept { SetUpStays connector.old connector.new }
{
    let mut in_hand = duty;
    for _ in 0..tries {
        match offer(connector, link, in_hand, packet)? {
            Some(duty) => in_hand = duty,
            None => return Ok(None),
        }
    }
    connector.unsent(in_hand, buffer).map(Some)
}

// Says that a packet was sent, and then ends what is due: the duty is spent once, and the tick needs none.
pub fn sent_and_ticked<S: Stage, H: ConditionHash>(
    connector: &mut Connector<S, H>,
    duty: SendDuty,
    time: u64,
    buffer: &mut [u8],
) -> Result<Option<Ended>, Refusal>
    ensures does { SentAndTicked S.held connector.old duty.number time buffer.old result connector.new buffer.new }
    ensures kept { SetUpStays connector.old connector.new }
{
    connector.sent(duty)?;
    connector.tick(time, buffer)
}
