// The colour of a process, by its pid.
ghost use Rattle.std.specs.Prelude.{◌≡◌, ◌%◌, ◌<◌};

/// As many colours as there are.
pub const COLOURS: u32 = 12;

/// The colours that the classes `c0` to `c11` stand for.
pub const PALETTE: [&str; 12] = [
    "#8c564b", "#1f77b4", "#ff7f0e", "#2ca02c", "#d62728", "#9467bd", "#17becf", "#bcbd22",
    "#e377c2", "#3b5b92", "#a05d00", "#00796b",
];

/// The colour of a process. Pids that are a multiple of 12 apart share one.
pub fn colour_of(pid: u32) -> u32
    ensures { result ≡ pid % 12 }
{
    pid % COLOURS
}
