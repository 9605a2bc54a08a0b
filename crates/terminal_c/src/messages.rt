//! Messages and exchanges, told to C.

ghost use Rattle.std.specs.Prelude.{◌≡◌};
ghost use Rattle.std.specs.Option.{option_to_list};
ghost use Rattle.relay_core.specs.Answers.{news_in};
ghost use Rattle.terminal_c.specs.Told.{contents_of, fault_of, taken_number, TellsExchange, TellsNews};

use crate::flat;
use ld_base::Message;
use offset_track::Taken;
use pingpong::Exchange;
use relay_core::News;
use relay_message::MessageFault;

/// Tells a message.
pub(crate) fn tell_message(message: &Message, told: &mut flat::Message)
    ensures { contents_of told.new ≡ message.now }
{
    told.from = message.from.get();
    told.to = message.to.get();
    told.number = message.number;
    told.sent = message.sent;
    told.has_echo = false;
    if let Some(echo) = message.echo {
        told.has_echo = true;
        told.echo_sent = echo.sent;
        told.echo_came = echo.came;
    }
    told.a = message.phases.a;
    told.b = message.phases.b;
    told.c = message.phases.c;
}

/// Tells what a message that was complete is, where one was.
pub(crate) fn tell_news(news: &News, told: &mut flat::News)
    ensures { TellsNews told.new (news_in news.now) }
{
    match news {
        News::Nothing => told.kind = 0,
        News::Accepted(message) => {
            told.kind = 1;
            tell_message(message, &mut told.message);
        }
        News::Repeat { number, last } => {
            told.kind = 2;
            told.number = *number;
            told.last = *last;
        }
        News::Stranger { address } => {
            told.kind = 3;
            told.address = *address;
        }
    }
}

/// The fault for which a place is no message, where there is one.
pub(crate) fn fault_of(fault: Option<MessageFault>) -> flat::Refused
    ensures { result ≡ fault_of fault }
{
    let (kind, detail) = match fault {
        None => (0, 0),
        Some(MessageFault::Marker) => (1, 0),
        Some(MessageFault::Check) => (2, 0),
        Some(MessageFault::Address(byte)) => (3, byte),
        Some(MessageFault::Flags(byte)) => (4, byte),
        Some(MessageFault::EchoFields) => (5, 0),
    };
    flat::Refused { kind, detail }
}

/// What became of an exchange, where one was completed.
pub(crate) fn taken_number(taken: Option<Taken>) -> u8
    ensures { result ≡ taken_number (option_to_list taken) }
{
    match taken {
        None => 0,
        Some(Taken::Kept) => 1,
        Some(Taken::Slow) => 2,
    }
}

/// Tells an exchange, where there is one.
pub(crate) fn tell_exchange(exchange: &Option<Exchange>, told: &mut flat::Exchange)
    ensures { TellsExchange told.new (option_to_list exchange.now) }
{
    told.given = false;
    if let Some(exchange) = exchange {
        told.given = true;
        told.a1 = exchange.a1;
        told.b2 = exchange.b2;
        told.b3 = exchange.b3;
        told.a4 = exchange.a4;
    }
}
