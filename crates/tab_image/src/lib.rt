//! Images: all that a core holds, as bytes, in the order in which they stand in a file.
//!
//! An image begins with six bytes and a version. Then come the clock, the number that the next accepted write gets, the users with their
//! system permissions and authorizations, and the tables, each with its settings, who may what on it, the rows at which its tablets end,
//! and its records; and at last a mark of four bytes. Numbers are big-endian. There are two versions: in the
//! second one each table has a horizon, behind its constraints. Both are read, where the first one says the least horizon for each table,
//! and the second one is written; the bytes of any other version are no image.
//!
//! `read_image` reads exactly the images: what it reads is held once, and memory is taken for bytes that came alone. Whoever writes one puts
//! its pieces by the functions of `writing`, which take no memory.
//!
//! | File | What |
//! |---|---|
//! | `version` | the versions |
//! | `image`, `user`, `table` | what an image says, as values: contracts see them as definitions have them |
//! | `writing`, `bits` | its pieces, and sets as bytes of bits |
//! | `loading` | a whole image, read |
//! | `reading_users`, `reading_tables`, `record_reading` | its pieces |
//! | `lent_record` | a record that lies whole in the bytes that are here, read where it lies |
//! | `lists`, `sets`, `fields`, `taking` | lists, sets, byte strings and names, and numbers, read from an input |
//! | `sanity`, `byte_order`, `known_users` | the conditions on an image, lists that rise, and users found by name |
//! | `fault`, `unread` | why bytes are no image, why none was loaded, and why a part wasn't read |
//! | `laws` | the laws of the definitions, each the contract of a function that does nothing |
//!
//! The definitions stand in `specs`, in this order of reading: `Images` (what an image is, as a relation between bytes and what they say,
//! and what else must hold of it), `Conditions` (the same conditions as tests), `Reading` (the function from bytes to an image, or why they
//! are none), `Spelling` (the bytes that are written for an image), `Written` (when these are an image), `Examples` (computed). `Streams`,
//! `Takes`, `Laying` and `Loading` are the words for functions that read from an input.
//!
//! In `proofs`, `PartLaw`, `SaneLaw`, `Rising` and `ImageLaw` tie the relation to the function, `SpellingLaw` and `WrittenLaw` to the bytes
//! that are written. `Streams` composes the clauses of functions that read one part after another; `TextLemmas`, `NumberLemmas`,
//! `FieldLemmas`, `PartsLemmas`, `RecordLemmas`, `BodyLemmas` and `LoadLemmas` are on these parts, `SaneLemmas` on the tests of records,
//! `SetLemmas` and `WritingLemmas` on sets and on texts that are put.
#![tactic(auto)]

mod byte_order;
mod fault;
mod fields;
mod image;
mod known_users;
mod laws;
mod lent_record;
mod lists;
mod loading;
mod reading_tables;
mod reading_users;
mod record_reading;
mod sanity;
mod sets;
mod table;
mod taking;
mod unread;
mod user;
mod version;
mod writing;

pub use fault::{ImageFault, LoadFault};
pub use image::Image;
pub use laws::{images_are_read, one_spelling, versions_are_told, what_fits_is_spelled};
pub use loading::read_image;
pub use tab_codec::put_field;
pub use tab_mem::Records;
pub use table::{ImageRight, ImageTable, TableHead};
pub use user::ImageUser;
pub use version::VERSION;
pub use writing::{
    put_count, put_end, put_front, put_head, put_record, put_record_count, put_right, put_settings,
    put_user,
};
