// Answers a script: one line for each command of standard input.
#![tactic(auto)]

mod answering;
mod lines;
mod memory;

use crate::answering::answer_lines;
use crate::memory::{bursts, packed_medium};
use bench::joined::{JoinedLine, LineMedia};
use bench::run::Workbench;
use end_bench::ends::Ends;
use named_media::chosen::ChosenMedium;
use named_media::media::{Media, NamedMedium};
use std::io;
use std::io::{BufReader, BufWriter, Write};

fn main(rt: HostRuntime) -> io::Result<()> {
    let heap = rt.alloc();
    let mut input = BufReader::new(heap, rt.stdin())?;
    let mut output = BufWriter::new(heap, rt.stdout())?;
    let mut m_packed = packed_medium(heap)?;
    let mut n_packed = packed_medium(heap)?;
    let mut eastward_packed = packed_medium(heap)?;
    let mut westward_packed = packed_medium(heap)?;
    let media = Media {
        m: NamedMedium::over(ChosenMedium::over(bursts(heap)?, &mut m_packed, bursts(heap)?)),
        n: NamedMedium::over(ChosenMedium::over(bursts(heap)?, &mut n_packed, bursts(heap)?)),
    };
    let line_media = LineMedia {
        eastward: ChosenMedium::over(bursts(heap)?, &mut eastward_packed, bursts(heap)?),
        westward: ChosenMedium::over(bursts(heap)?, &mut westward_packed, bursts(heap)?),
    };
    let mut bench = Workbench {
        ends: Ends::new(),
        media,
        joined: JoinedLine {
            line: None,
            media: line_media,
        },
    };
    let done = answer_lines(heap, &mut input, &mut output, &mut bench);
    // Slips that are kept go back, also where the output failed.
    let Workbench {
        ends,
        media: _,
        joined: _,
    } = bench;
    let _ends = ends.close();
    done?;
    output.flush()
}
