//! The forms of a script's lines, and the kinds of their words: the table that `--help` prints, and that explanations cite.

/// The lines, a form in each row: the command and the kinds of the words behind it. What stands in brackets may be missing, and what
/// stands before `..` may come again and again.
pub const LINES: &str = "  as U
  at MOMENT
  createtable T [TIME [VERSIONS]]
  createtable T VERSIONS
  droptable T
  createuser U
  dropuser U
  setauths U AUTHS
  grant U SYSTEM_PERMISSION
  grant U TABLE_PERMISSION T
  revoke U SYSTEM_PERMISSION
  revoke U TABLE_PERMISSION T
  rights T
  constraints T RULES
  versions T N
  horizon T TS
  insert T ROW FAM QUAL LABEL VALUE [TS]
  delete T ROW FAM QUAL LABEL [TS]
  mutate T ROW [UPDATE [; UPDATE]..]
  scan T AUTHS [LOW HIGH [COLS]]
  open T AUTHS [LOW HIGH [COLS]]
  next SESSION COUNT
  many SESSION [LOW HIGH]..
  close SESSION
  flush T
  compact T EXTENT
  begin T ROW KIND
  merge JOB
  install T JOB
  status T
  addsplit T ROW
  splitsize T ROW LIMIT
  splits T
  save FILE
  load FILE
  rotate";

/// What each line does, in a sentence.
pub const DEEDS: &str = "  as           Later lines are this user's.
  at           Later lines come at this moment.
  createtable  Makes a table.
  droptable    Drops a table, with its cells and all rights on it.
  createuser   Makes a user.
  dropuser     Drops a user, with their rights and authorizations.
  setauths     Gives a user these authorizations in place of those that the user holds.
  grant        Gives a user a permission.
  revoke       Takes a permission from a user.
  rights       Tells your own permissions, those on a table among them, and your authorizations.
  constraints  Sets what all that is written to a table must keep to.
  versions     Lowers how many versions of a column a table shows.
  horizon      Has a table refuse what is written below this time.
  insert       Writes one cell.
  delete       Hides what a column holds up to a time.
  mutate       Writes all of these updates to a row, or none.
  scan         Shows the cells whose labels hold under these authorizations.
  open         Opens a session on what a scan would show now.
  next         Shows the next cells of a session.
  many         Shows what a session has in each of these ranges of rows.
  close        Closes a session.
  flush        Makes a sorted table of what was written, in each tablet of a table.
  compact      Merges the sorted tables of each tablet of a table.
  begin        Begins a compaction of one tablet, and tells its number.
  merge        Makes the merge of a compaction.
  install      Puts a finished merge in the place of what it merged.
  status       Counts what a table consists of.
  addsplit     Splits a tablet of a table behind this row.
  splitsize    Splits a tablet in its middle, if it is large enough.
  splits       Lists the rows at which a table is split.
  save         Saves an image of everything to a file.
  load         Puts what an image holds in the place of everything.
  rotate       Hands out the history so far, and begins a new one.";

/// The updates of a `mutate`, as the lines.
pub const UPDATES: &str = "  put FAM QUAL LABEL VALUE STAMP
  del FAM QUAL LABEL STAMP";

/// The kinds of words, and what each is.
pub const KINDS: &str = "  U                  a user's name: 1 to 128 of a-z A-Z 0-9 _ - .
  T                  a table's name: 1 to 128 of a-z A-Z 0-9 _ - .
  MOMENT             a whole number of 64 bits with its sign, as 7 or -7
  TS                 a timestamp: a whole number of 64 bits with its sign, as 7 or -7
  STAMP              a timestamp, or - for none
  TIME               time=any or time=server
  VERSIONS           versions=N with N from 1 to 1000
  N                  how many versions of a column are shown: a whole number from 1 to 1000
  AUTHS              byte words with commas between them, or \\0 for none
  RULES              keysize, alphanum, numeric, visibility: some with commas between them, or \\0 for none
  SYSTEM_PERMISSION  GRANT, CREATE_TABLE, DROP_TABLE, ALTER_TABLE, CREATE_USER, DROP_USER, ALTER_USER or SYSTEM
  TABLE_PERMISSION   READ, WRITE, ALTER_TABLE, GRANT or DROP_TABLE
  ROW                a byte word: ! to ~ as they are but \\\\ for \\, \\xHH (H of 0-9 a-f) for any byte, \\e for none
  FAM                a byte word: ! to ~ as they are but \\\\ for \\, \\xHH (H of 0-9 a-f) for any byte, \\e for none
  QUAL               a byte word: ! to ~ as they are but \\\\ for \\, \\xHH (H of 0-9 a-f) for any byte, \\e for none
  LABEL              a byte word: ! to ~ as they are but \\\\ for \\, \\xHH (H of 0-9 a-f) for any byte, \\e for none
  VALUE              a byte word: ! to ~ as they are but \\\\ for \\, \\xHH (H of 0-9 a-f) for any byte, \\e for none
  LOW                [ and a byte word (from this row on), ( and a byte word (behind it), or \\0 for no bound
  HIGH               [ and a byte word (up to this row), ( and a byte word (before it), or \\0 for no bound
  COLS               FAM or FAM:QUAL, with commas between them, or \\0 for all
  SESSION            the number that an open gave: a whole number of 32 bits without a sign, as 0
  COUNT              how many cells: a whole number of 32 bits without a sign, as 100
  EXTENT             partial or full
  KIND               minor, partial or full
  JOB                the number that a begin gave: a whole number of 64 bits without a sign, as 0
  LIMIT              a number of bytes: a whole number of 64 bits without a sign, as 1000
  FILE               a file's name in UTF-8: ! to ~ as they are but \\\\ for \\, \\xHH (H of 0-9 a-f) for any byte
  UPDATE             put or del, and the words behind it
  ;                  between two updates";

/// The row's first word, and what stands behind it: nothing where that is the only one.
pub(crate) fn parted(row: &str) -> (&str, &str) {
    let words = row.trim_start();
    words.split_once(' ').unwrap_or((words, ""))
}

/// What stands behind the word in the row, if the row begins with it.
pub(crate) fn behind<'a>(row: &'a str, word: &[u8]) -> Option<&'a str> {
    let (first, rest) = parted(row);
    if first.as_bytes() == word {
        Some(rest)
    } else {
        None
    }
}

/// What stands behind the word in the first row of the table that begins with it.
pub(crate) fn row_of<'a>(table: &'a str, word: &[u8]) -> Option<&'a str> {
    for row in table.lines() {
        if let Some(rest) = behind(row, word) {
            return Some(rest);
        }
    }
    None
}

/// What a word of this kind is.
pub(crate) fn meaning(kind: &str) -> &'static str {
    match row_of(KINDS, kind.as_bytes()) {
        Some(rest) => rest.trim_start(),
        None => "",
    }
}
