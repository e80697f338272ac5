//! What opens the files of fonts and of their waivers.

ghost use Rattle.std.specs.Prelude.{◌≡◌};
ghost use Rattle.t1_many.specs.FontFiles.{asks};

use std::io;
use t1_io::Source;
use t1_names::is_input;

/// The files of fonts and of their waivers, by the fonts' names. Each call is told: what a run did to the files is known by what it left.
pub trait FontFiles {
    ghost use Rattle.std.specs.Prelude.{◌≡◌, false, IfOk, IfSome, option_map};
    ghost use Rattle.t1_io.specs.Devices.{is_over};
    ghost use Rattle.t1_many.specs.Calls.{Calls, opened_in};

    /// An open file of a font.
    type Font: Source + Drop;

    /// An open file of waivers.
    type Waivers: Source + Drop;

    // What each call does.
    ghost calls: { Calls Self };

    /// Opens the file of a font. So far no read of it has failed or found its end.
    fn open_font(&mut self, name: &str) -> io::Result<Self::Font>
        ensures opens { calls.Opens self.old self.new name.now (opened_in Self.Font.state result) }
        ensures unread { IfOk result (λ file. is_over (Self.Font.state file) ≡ false) };

    /// Opens the file of a font's waivers, if there is one. The same holds of it.
    fn open_waivers(&mut self, name: &str) -> Option<io::Result<Self::Waivers>>
        ensures opens { calls.OpensWaivers self.old self.new name.now (option_map (opened_in Self.Waivers.state) result) }
        ensures unread { IfSome result (λ opened. IfOk opened (λ file. is_over (Self.Waivers.state file) ≡ false)) };

    /// Leaves the file of a font, which isn't read any further.
    fn leave_font(&mut self, name: &str, file: Self::Font)
        ensures { calls.Leaves self.old self.new name.now (Self.Font.state file) };

    /// Leaves the file of a font's waivers.
    fn leave_waivers(&mut self, name: &str, file: Self::Waivers)
        ensures { calls.LeavesWaivers self.old self.new name.now (Self.Waivers.state file) };
}

/// What becomes of the files of waivers beside fonts.
#[derive(Clone, Copy, Debug, PartialEq, Eq)]
pub enum WaiverFiles {
    /// They are read.
    Read,
    /// They are left aside: none is opened.
    LeftAside,
}

impl WaiverFiles {
    /// Whether the file of the waivers of this font is asked for. Standard input has none.
    pub(crate) fn asks(self, name: &str) -> bool
        ensures { result ≡ asks self name.now }
    {
        match self {
            WaiverFiles::Read => !is_input(name),
            WaiverFiles::LeftAside => false,
        }
    }
}
