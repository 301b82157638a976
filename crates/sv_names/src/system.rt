// System tasks and functions.

/// What a system name is (IEEE 1800-2017, 20 and 21).
#[derive(Clone, Copy, Debug, PartialEq, Eq)]
pub enum System {
    /// `$display` (21.2.1)
    Display,
    /// `$write` (21.2.1)
    Write,
    /// `$strobe` (21.2.2)
    Strobe,
    /// `$monitor` (21.2.3)
    Monitor,
    /// `$finish` (20.2)
    Finish,
    /// `$exit` (24.7)
    Exit,
    /// `$dumpfile` and `$dumpvars` (21.7.1)
    Dump,
    /// `$time` (20.3.1)
    Time,
    /// `$cast` (8.16)
    Cast,
    /// `$bits` (20.6.2)
    Bits,
    /// `$clog2` (20.8.1)
    Clog2,
    /// `$signed` (11.7)
    Signed,
    /// `$unsigned` (11.7)
    Unsigned,
    /// `$sformatf` (21.3.3)
    Sformatf,
    /// None of them.
    Unknown,
}
