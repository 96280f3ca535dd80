//! Loads that are drawn from a number.
use generated_load::generate;
use std::alloc::Global;

// A number, how its messages begin and end, how many bytes they have, and the same of its schedule, as
// `scripts/load_of.py` draws them.
struct Drawn {
    number: u32,
    messages: (&'static str, &'static str, usize),
    schedule: (&'static str, &'static str, usize),
}

static DRAWN: [Drawn; 3] = [
    Drawn {
        number: 1,
        messages: (
            "T1 NEWCUST C001 ANN\nT15 DEPOSIT A001 96\n",
            "\nT20 NOTE C001 N68\n",
            33_493,
        ),
        schedule: ("R2\nIN\nOUT\nLOG\n", "\nIN\nR2\n", 71_748),
    },
    Drawn {
        number: 7,
        messages: (
            "T1 NEWCUST C001 ANN\nT10 NOTE C001 N94\n",
            "\nT17 NOTE C001 N93\n",
            33_520,
        ),
        schedule: ("R2\nIN\nOUT\nR2\n", "\nIN\nLOG\n", 71_751),
    },
    Drawn {
        number: 2_147_483_647,
        messages: (
            "T1 NEWCUST C001 ANN\nT10 DEPOSIT A002 66\n",
            "\nT10 WDRAW A002 62\n",
            33_452,
        ),
        schedule: ("LOG\nR2\nR2\nR4\n", "\nR3\nIN\n", 71_759),
    },
];

// Whether a text begins and ends so, and has so many bytes.
fn is_drawn(text: &[u8], (begins, ends, length): (&str, &str, usize)) -> bool {
    text.starts_with(begins.as_bytes()) && text.ends_with(ends.as_bytes()) && text.len() == length
}

// Whether a load is that of its number.
fn is_load(alloc: Global, drawn: &Drawn) -> bool {
    match generate(alloc, drawn.number) {
        Ok(load) => {
            is_drawn(load.messages.as_slice(), drawn.messages)
                && is_drawn(load.schedule.as_slice(), drawn.schedule)
        }
        Err(_) => false,
    }
}

#[test]
fn loads_are_drawn_from_their_numbers(rt: HostRuntime) {
    for drawn in &DRAWN {
        assert!(rt; is_load(rt.alloc(), drawn), "at {}", drawn.number);
    }
}
