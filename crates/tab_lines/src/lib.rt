//! Reads the lines of a script: the text of one line in, what it says out.
//!
//! Lines are in the manner of the Accumulo shell: a command and its words, parted by spaces. Spaces before the first and
//! after the last word are passed over. An empty line, a line of spaces alone and a line whose first byte is `#` say
//! nothing. Everything else that isn't one of these lines is a fault:
//!
//! | Line | What it says |
//! |---|---|
//! | `as U` | the user who asks from now on |
//! | `at MOMENT` | the moment of later events |
//! | `createtable T [time=any\|time=server] [versions=N]` | make a table; `time=any` and 1 where nothing is said |
//! | `droptable T` | take a table away |
//! | `createuser U`, `dropuser U` | make a user, take one away |
//! | `setauths U LIST` | give a user these authorizations |
//! | `grant U P`, `revoke U P` | a system permission of a user |
//! | `grant U P T`, `revoke U P T` | a table permission of a user |
//! | `rights T` | tell the asking user his own rights, those on this table among them |
//! | `constraints T LIST` | set which constraints a table has: `keysize`, `alphanum`, `numeric`, `visibility` |
//! | `versions T N` | lower how many versions of a column a table shows |
//! | `horizon T TS` | raise the time below which a table takes no update |
//! | `insert T ROW FAM QUAL LABEL VALUE [TS]` | a mutation of one put |
//! | `delete T ROW FAM QUAL LABEL [TS]` | a mutation of one delete |
//! | `mutate T ROW`, updates parted by the word `;` | a mutation of `put FAM QUAL LABEL VALUE TS` and `del FAM QUAL LABEL TS`, TS a number or `-` for none |
//! | `scan T AUTHS [LOW HIGH [COLS]]` | a whole scan |
//! | `open T AUTHS [LOW HIGH [COLS]]` | open a session, which is kept |
//! | `next K N` | the next N cells of the session that has the number K |
//! | `many K` and pairs `LOW HIGH` | the whole answer of that session in each of these ranges |
//! | `close K` | close that session |
//! | `flush T` | a minor compaction of each of a table's tablets |
//! | `compact T partial\|full` | a major compaction of each of them, of some of their sorted tables or of all that they hold |
//! | `begin T ROW minor\|partial\|full` | begin a compaction of the tablet that holds the row: of what was written since the last one, of some of its sorted tables or of all that it holds |
//! | `merge K` | make the merge of the job that has the number K |
//! | `install T K` | put the finished merge of that job in the place of what it merged |
//! | `status T` | count a table's tablets, and what they hold |
//! | `addsplit T ROW` | split the tablet that holds the row, at that row |
//! | `splitsize T ROW LIMIT` | split the tablet that holds the row in its middle, where its sorted tables have so many bytes or more |
//! | `splits T` | tell the rows at which a table is split |
//! | `save FILE` | save an image of everything to a file |
//! | `load FILE` | load the image in a file in place of everything |
//! | `rotate` | hand out the history so far |
//!
//! Commands, the names of permissions and the words `put`, `del`, `;`, `-`, `time=..`, `versions=`, `minor`, `partial` and `full` are literal. Names
//! of users and tables, rows and the other parts are byte words (crate `tab_text`), and so is FILE, whose bytes are UTF-8. P is the name of a permission as
//! crate `tab_policy` has it: of a system permission where it is the last word, else of a table permission. The forms of updates have fixed lengths and are read by place, so a value may be
//! the word `;`. A number is decimal digits, leading zeros are accepted, a minus stands before a negative one alone, and
//! what an i64 can't hold is a fault. The N of versions is 1 to 1,000, K and the N of `next` have no minus and are below 2^32, LIMIT and the K of a job have no minus and are below 2^64. A list is byte words between commas, or the word `\0` for none;
//! each member has at least one byte of text. A bound is `\0` for none, or a byte word behind `[` (in the range) or `(`
//! (not in it). A column is a family, or a family and a qualifier with the first colon between them. Commas and colons
//! part a word before its escapes are undone.
//!
//! | File | What |
//! |---|---|
//! | `words` | the words of a line that are left |
//! | `spelling`, `names`, `numbers`, `bounds`, `columns` | what one word says |
//! | `lists` | what the parts of a word between commas say |
//! | `fields`, `updates`, `permissions` | one word after another, the updates of a mutation, and what is granted to whom |
//! | `command`, `line`, `named` | the first word, and the lines; among them those of one name |
//! | `file_line` | the lines that name a file |
//! | `scan` | what a scan asks |
//! | `laws` | reading is exactly the forms of lines |
//!
//! `specs/Forms` says what the lines are, with one form for each row of the table above, and nothing of how they are
//! read; `specs/Lines` reads them. A word without escapes is copied once, into what it becomes part of; names of users
//! and tables, numbers and the words of commands take no memory. In `specs`, `Words`, `Fields` and `Updates` are what `Lines` is made of, `Gives` and
//! `Spelling` say what the code's results stand for. In `proofs`, the files named for a law show that reading one kind of word is
//! exactly its form, `LineLaw` puts them together, and the others have lemmas for the code.
#![tactic(auto)]

mod bounds;
mod columns;
mod command;
mod fields;
mod file_line;
mod laws;
mod line;
mod lists;
mod named;
mod names;
mod numbers;
mod permissions;
mod scan;
mod spelling;
mod updates;
mod words;

pub use command::Command;
pub use file_line::{FileKind, FileLine, FileName};
pub use laws::lines_are_forms;
pub use line::{Line, read_line};
pub use scan::{read_scan, words_of_scan};
pub use spelling::Spelled;
pub use tab_text::ParseError;
pub use updates::TimestampForm;
pub use words::Words;
