// The page around the queues: its head with the looks of each kind of box, a task's box, and its foot.
use board::numbers::{Number, TaskNo};
use board::priority::number;
use board::records::Task;
use board::status::Status;
use lent::bytes::Lent;
use std::io::Write;
use std::{fmt, io};
use telling::finding::tell_running;
use telling::print::shown;
use telling::state::{State, print_state, state_of, tell_bit};
use telling::totals::{tell_blocks, tell_installed};

const LOOKS: &str = "<style>
text{font:12px 'DejaVu Sans',Verdana,Arial,sans-serif;fill:#22303c}
.head{font-size:20px;font-weight:bold}.soft{fill:#5b6b78}.row{fill:#f6f8fa}
.k{font-size:19px;font-weight:bold}.name{font:bold 17px 'DejaVu Sans Mono',Consolas,monospace}
.right{text-anchor:end}.small{font-size:10px}
.task rect{stroke-width:1.5}.ready rect{fill:#e7f4ec;stroke:#2e8b57}
.message rect{fill:#e7f4ec;stroke:#2e8b57;stroke-dasharray:5 3}
.wait rect{fill:#eef1f4;stroke:#8796a3}.interrupt rect{fill:#f0ecfa;stroke:#7a62b8}
.runs rect{fill:#2e8b57;stroke:#1d6b40}.runs text{fill:#fff}
.queued rect{fill:#e3eefb;stroke:#3c78c3}.held rect{fill:#fff1d6;stroke:#c98a1b}.lifo rect{stroke-dasharray:4 2}
.timer rect,.timed rect{fill:#fbeaf1;stroke:#b3416f}
.no{font-weight:bold}.pr{font-size:10px;text-anchor:end}.label{font-size:10px;text-anchor:end;fill:#9a6a12}
path{fill:none;stroke:#3c78c3;stroke-width:1.3;marker-end:url(#to)}
</style>
<defs><marker id='to' viewBox='0 0 8 8' refX='3' refY='4' markerWidth='6' markerHeight='6' orient='auto'>\
<polygon points='0,0 8,4 0,8' fill='#3c78c3'/></marker></defs>
";

// What a box of a look means, and where that is said.
const KINDS: [(&str, u32, &str); 4] = [
    ("queued", 380, "queued"),
    ("held", 492, "held, FIFO"),
    ("held lifo", 618, "held, LIFO"),
    ("timed", 744, "on the timer"),
];

const FLAGS: [(u8, &[u8]); 3] = [
    (Status::INTQ, b" INTQ"),
    (Status::DEBUG, b" DEBUG"),
    (Status::MROB, b" MROB"),
];

// The page reaches 40 below the last row.
pub(crate) fn draw_head<W: Write>(
    out: &mut W,
    l: Lent<'_>,
    runs: u16,
    foot: u32,
) -> io::Result<()> {
    let high = u64::from(foot) + 40;
    writeln!(
        out,
        "<svg xmlns='http://www.w3.org/2000/svg' width='1216' height='{high}' viewBox='0 0 1216 {high}'>",
    )?;
    writeln!(out, "<title>Station board</title>")?;
    write!(out, "{LOOKS}")?;
    writeln!(out, "<rect width='100%' height='100%' fill='#fff'/>")?;
    writeln!(
        out,
        "<text class='head' x='24' y='40'>Station board</text>",
    )?;
    write!(out, "<text class='soft' x='24' y='62'>")?;
    tell_installed(out, l)?;
    write!(out, "; ")?;
    tell_running(out, runs)?;
    writeln!(out, "</text>")
}

// A task's row on its ground, which is so high.
pub(crate) fn draw_row<W: Write>(out: &mut W, y: u32, high: u32) -> io::Result<()> {
    writeln!(out, "<g transform='translate(24,{y})'>")?;
    writeln!(
        out,
        "<rect class='row' x='-12' y='-5' width='1192' rx='9' height='{high}'/>",
    )
}

pub(crate) fn end_row<W: Write>(out: &mut W) -> io::Result<()> {
    writeln!(out, "</g>")
}

// A character of a name: what XML reads as its own is written by its name.
#[derive(Clone, Copy)]
struct Shown(u8);

impl fmt::Display for Shown {
    fn fmt<W: fmt::Write>(&self, f: &mut fmt::Formatter<W>) -> fmt::Result {
        match shown(self.0) {
            b'&' => f.write_str("&amp;"),
            b'<' => f.write_str("&lt;"),
            b'>' => f.write_str("&gt;"),
            c => f.write_char(char::from(c)),
        }
    }
}

fn class_of(s: State) -> &'static str {
    match s {
        State::Running => "runs",
        State::Ready => "ready",
        State::HandedOver => "message",
        State::Waits => "wait",
        State::WaitsForInterrupt => "interrupt",
    }
}

fn draw_flags<W: Write>(out: &mut W, s: Status) -> io::Result<()> {
    write!(out, "<text class='small right' x='328' y='41'>")?;
    for (bit, words) in FLAGS {
        tell_bit(out, s, bit, words)?;
    }
    write!(out, "</text>")
}

fn draw_name<W: Write>(out: &mut W, w: u16) -> io::Result<()> {
    let [low, high] = w.to_le_bytes();
    write!(
        out,
        "<text class='name' x='48' y='23' xml:space='preserve'>{}{}</text>",
        Shown(low),
        Shown(high),
    )?;
    write!(out, "<text class='small' x='80' y='22'>{w:04X}H</text>")
}

pub(crate) fn draw_task<W: Write>(out: &mut W, k: TaskNo, t: Task, runs: bool) -> io::Result<()> {
    let state = state_of(t.stat, runs);
    write!(
        out,
        "<g class='task {}'><rect width='340' height='50' rx='8'/><text class='k' x='12' y='24'>{}</text>",
        class_of(state),
        k.number(),
    )?;
    draw_name(out, t.name)?;
    write!(
        out,
        "<text class='right' x='328' y='23'>priority {}</text><text class='small' x='132' y='22'>SPTR {:04X}H</text>",
        number(t.prio),
        t.sptr,
    )?;
    write!(out, "<text class='small' x='12' y='41'>")?;
    print_state(out, state)?;
    write!(out, "</text>")?;
    draw_flags(out, t.stat)?;
    writeln!(out, "</g>")
}

// The totals, and what the looks of the boxes mean.
pub(crate) fn draw_foot<W: Write>(out: &mut W, l: Lent<'_>, y: u32) -> io::Result<()> {
    let y = u64::from(y) + 4;
    write!(
        out,
        "<g transform='translate(24,{y})'><text class='soft' y='14'>",
    )?;
    tell_blocks(out, l)?;
    write!(out, "</text>")?;
    for (class, x, words) in KINDS {
        write!(
            out,
            "<g class='{class}' transform='translate({x},2)'><rect width='24' height='14' rx='3'/></g>",
        )?;
        let beside = u64::from(x) + 32;
        write!(out, "<text class='soft' x='{beside}' y='14'>{words}</text>")?;
    }
    writeln!(
        out,
        "<text class='soft' x='872' y='14'>in a box: its number, p and its priority</text></g>\n</svg>",
    )
}
