// Why a text is not written.
ghost use Rattle.std.specs.Prelude.{◌≡◌};
ghost use Rattle.chart_writer.specs.Faults.{write_fault_number};

#[derive(Clone, Copy, Debug, PartialEq, Eq)]
pub enum WriteFault {
    BufferTooShort,
}

impl WriteFault {
    // The refusal's number. kept: no plainer, since the format gives this refusal a number (CHARTS.md), and an enum has none.
    pub fn number(self) -> u8
        ensures { result ≡ write_fault_number self }
    {
        match self {
            WriteFault::BufferTooShort => 17,
        }
    }
}
