//! Arguments through the real `clap`: lines that are taken, and what is refused.

mod options;

use command_line::{LineStop, Settings, default_settings, line};
use page_draw::Sheet;
use std::alloc::{AllocError as NoMemory, Global};
use std::test::Fail;

fn words_of(alloc: Global, words: &[&str]) -> Result<Vec<String>, NoMemory> {
    let mut list = Vec::new(alloc);
    for word in words {
        list.push(String::from_str(alloc, *word)?)?;
    }
    Ok(list)
}

const DEFAULTS: Settings = Settings {
    res: 300,
    sheet: Sheet {
        width: 2550,
        height: 3300,
        left: 300,
        top: 300,
        tolerant: false,
    },
    workers: 1,
    cache: 16,
    room: 2147483648,
    sample: None,
    packed: false,
    trace: false,
    summary: false,
};

// The arguments, how many workers there are, and the settings.
static TAKEN: [(&'static [&'static str], usize, Settings); 8] = [
    (&[], 1, DEFAULTS),
    (&["--res=300"], 32, DEFAULTS),
    (&["--res", "0000300"], 32, DEFAULTS),
    (&["--workers", "1", "--cache=16"], 32, DEFAULTS),
    (&["--room", "2147483648"], 32, DEFAULTS),
    // Every option is read.
    (
        &[
            "--trace",
            "--width",
            "0000008",
            "--sample=3",
            "--res=4800",
            "--workers",
            "2",
            "--room",
            "0000000006",
        ],
        2,
        Settings {
            res: 4800,
            sheet: Sheet {
                width: 8,
                height: 20000,
                left: 4800,
                top: 4800,
                tolerant: false,
            },
            workers: 2,
            cache: 16,
            room: 6,
            sample: Some(3),
            packed: false,
            trace: true,
            summary: false,
        },
    ),
    (
        &[
            "--summary",
            "--packed",
            "--sample",
            "1000",
            "--tolerant",
            "--cache",
            "256",
            "--room=0",
            "--workers=32",
            "--top=0",
            "--left=20000",
            "--height=19999",
            "--width=1",
            "--res=7",
        ],
        32,
        Settings {
            res: 7,
            sheet: Sheet {
                width: 1,
                height: 19999,
                left: 20000,
                top: 0,
                tolerant: true,
            },
            workers: 32,
            cache: 256,
            room: 0,
            sample: Some(1000),
            packed: true,
            trace: false,
            summary: true,
        },
    ),
    (
        &["--workers=2"],
        2,
        Settings {
            res: 300,
            sheet: Sheet {
                width: 2550,
                height: 3300,
                left: 300,
                top: 300,
                tolerant: false,
            },
            workers: 2,
            cache: 16,
            room: 2147483648,
            sample: None,
            packed: false,
            trace: false,
            summary: false,
        },
    ),
];

fn read(alloc: Global, words: &[&str], workers: usize) -> Result<Settings, LineStop> {
    line(alloc, words_of(alloc, words)?.as_slice(), workers)
}

#[test]
fn lines_that_are_taken(rt: HostRuntime) {
    assert_eq!(rt; default_settings(), DEFAULTS);
    for (words, workers, settings) in TAKEN.iter() {
        assert_eq!(rt;
            read(rt.alloc(), words, *workers),
            Ok(*settings),
            "at {words:?}"
        );
    }
}

// The text of a resolution, and the sheet's width, height and margins: 8.5 by 11 inches, cut at
// 20,000 dots.
static SHEETS: [(&'static str, u32, u32, u32); 7] = [
    ("1", 8, 11, 1),
    ("601", 5108, 6611, 601),
    ("1818", 15453, 19998, 1818),
    ("1819", 15461, 20000, 1819),
    ("2352", 19992, 20000, 2352),
    ("2353", 20000, 20000, 2353),
    ("4800", 20000, 20000, 4800),
];

#[test]
fn the_sheet_goes_by_the_resolution(rt: HostRuntime) {
    for (text, width, height, margin) in SHEETS.iter() {
        let sheet = Sheet {
            width: *width,
            height: *height,
            left: *margin,
            top: *margin,
            tolerant: false,
        };
        assert_eq!(rt;
            read(rt.alloc(), &["--res", *text], 1),
            Ok(Settings {
                res: *margin,
                sheet,
                ..DEFAULTS
            }),
            "at {text}"
        );
    }
}

// The arguments, and how many workers there are.
static REFUSED: [(&'static [&'static str], usize); 49] = [
    (&["--workers", "33"], 64),
    (&["--workers=0"], 64),
    (&["--res", "0"], 64),
    (&["--res=4801"], 64),
    (&["--width=0"], 64),
    (&["--height", "20001"], 64),
    (&["--cache=257"], 64),
    (&["--room=2147483649"], 64),
    (&["--room", "9999999999"], 64),
    (&["--sample=1001"], 64),
    (&["--sample", "0"], 64),
    (&["--res", "300", "--res", "300"], 64),
    (&["--res=300", "--res=300"], 64),
    (&["--trace", "--trace"], 64),
    (&["--res=-1"], 64),
    (&["--res", "-1"], 64),
    (&["--res", "+300"], 64),
    (&["--res="], 64),
    (&["--res", ""], 64),
    (&["--res", "00000300"], 64),
    (&["--cache=0000000016"], 64),
    (&["--room=00000000006"], 64),
    (&["--room=-1"], 64),
    (&["--room="], 64),
    (&["--room=6", "--room", "6"], 64),
    (&["--res=3=3"], 64),
    (&["--res", "--trace"], 64),
    (&["--width"], 64),
    (&["--"], 64),
    (&["--res=300", "--"], 64),
    (&["page.dvi"], 64),
    (&["300"], 64),
    (&[""], 64),
    (&["-"], 64),
    (&["-h"], 64),
    (&["--help"], 64),
    (&["--version"], 64),
    (&["--tra"], 64),
    (&["--trace="], 64),
    (&["--trace=1"], 64),
    (&["--trace", "1"], 64),
    (&["--sample=3", "--packed=1"], 64),
    (&["--tolerant="], 64),
    (&["--tolerant=1"], 64),
    (&["--tolerant", "1"], 64),
    (&["--tolerant", "--tolerant"], 64),
    // Packed fonts are those of a sample.
    (&["--packed"], 64),
    // No more workers than there are.
    (&["--workers=2"], 1),
    (&[], 0),
];

#[test]
fn all_else_is_refused(rt: HostRuntime) {
    for (words, workers) in REFUSED.iter() {
        assert_eq!(rt;
            read(rt.alloc(), words, *workers),
            Err(LineStop::Usage),
            "at {words:?}"
        );
    }
}
