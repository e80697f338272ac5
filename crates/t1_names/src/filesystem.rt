//! What a system says of files and folders.

use crate::folders::Listing;
use std::alloc::AllocError;
use std::io;

/// What a system says of files and folders, by their names. A list may be a pipe, which has its bytes once, so each call is told.
pub trait FileSystem {
    ghost use Rattle.std.specs.Prelude.{option_map};
    ghost use Rattle.t1_names.specs.Causes.{text_read};
    ghost use Rattle.t1_names.specs.Questions.{Questions};

    // What each call asks.
    ghost asks: { Questions Self };

    /// Whether a name leads to a folder.
    fn is_folder(&mut self, name: &str) -> bool
        ensures { asks.Leads self.old self.new name.now result };

    /// Lists what is in a folder.
    fn list_folder(&mut self, folder: &str) -> Result<Listing, AllocError>
        ensures { asks.Lists self.old self.new folder.now result };

    /// Reads the text of a regular file. None where there is no such file.
    fn text(&mut self, name: &str) -> Option<io::Result<Vec<u8>>>
        ensures { asks.ReadsText self.old self.new name.now (option_map text_read result) };

    /// Reads the text of a list, from anything that can be read, and from standard input for `-`.
    fn list_text(&mut self, name: &str) -> io::Result<Vec<u8>>
        ensures { asks.ReadsList self.old self.new name.now (text_read result) };
}
