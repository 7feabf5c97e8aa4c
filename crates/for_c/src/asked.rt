// A call from its kind and the words and bytes that C hands over; what a call does not take is ignored.
ghost use Rattle.std.specs.Prelude.{◌≡◌};
ghost use Rattle.for_c.specs.Asked.{asked_of};

use paper::call::Call;

// None where the kind is that of no call.
pub fn call_of_kind(kind: u8, a: u16, b: u16, c: u16, stat: u8, prio: u8) -> Option<Call>
    ensures { result ≡ asked_of kind a b c stat prio }
{
    match kind {
        1 => Some(Call::Install {
            k: a,
            stat,
            prio,
            sptr: b,
            name: c,
        }),
        2 => Some(Call::PostInterrupt { k: a }),
        3 => Some(Call::Find { name: a }),
        4 => Some(Call::CancelTask { k: a }),
        5 => Some(Call::Claim),
        6 => Some(Call::Prepare {
            m: a,
            stat,
            prio,
            sptr: b,
        }),
        7 => Some(Call::Release { m: a }),
        8 => Some(Call::Send { m: a, r: b }),
        9 => Some(Call::SendAndWait { m: a, r: b }),
        10 => Some(Call::Resend { m: a }),
        11 => Some(Call::ResendAndWait { m: a }),
        12 => Some(Call::Forward { m: a, r: b }),
        13 => Some(Call::ForwardAndWait { m: a, r: b }),
        14 => Some(Call::Return { m: a }),
        15 => Some(Call::ReturnAndWait { m: a }),
        16 => Some(Call::Receive),
        17 => Some(Call::ReceiveAndWait),
        18 => Some(Call::CancelMessage { m: a, r: b }),
        19 => Some(Call::WaitForInterrupt),
        _ => None,
    }
}
