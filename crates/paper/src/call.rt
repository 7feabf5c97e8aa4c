// The nineteen calls, kinds 1 to 19 in this order, each with its own arguments: numbers and names are any words, STAT and PRIO any bytes.
#[derive(Clone, Copy, Debug, PartialEq, Eq)]
pub enum Call {
    Install {
        k: u16,
        stat: u8,
        prio: u8,
        sptr: u16,
        name: u16,
    },
    PostInterrupt {
        k: u16,
    },
    Find {
        name: u16,
    },
    CancelTask {
        k: u16,
    },
    Claim,
    Prepare {
        m: u16,
        stat: u8,
        prio: u8,
        sptr: u16,
    },
    Release {
        m: u16,
    },
    Send {
        m: u16,
        r: u16,
    },
    SendAndWait {
        m: u16,
        r: u16,
    },
    Resend {
        m: u16,
    },
    ResendAndWait {
        m: u16,
    },
    Forward {
        m: u16,
        r: u16,
    },
    ForwardAndWait {
        m: u16,
        r: u16,
    },
    Return {
        m: u16,
    },
    ReturnAndWait {
        m: u16,
    },
    Receive,
    ReceiveAndWait,
    CancelMessage {
        m: u16,
        r: u16,
    },
    WaitForInterrupt,
}
