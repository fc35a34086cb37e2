//! How the program is called.

/// What `--version` prints.
pub const VERSION: &str = "rmdsum (Nattizhu) 0.1.0
";

/// What `--help` prints after `Usage: ` and the program's name.
pub const HELP: &str = " [OPTION]... [FILE]...
Print the RIPEMD digests of files, or check lists of them.

Without a FILE, or where FILE is -, read standard input.

  -a, --algorithm=BITS   the hash: 128, 160, 256 or 320; 160 if not given,
                           and with --check that of each line
  -b, --binary           put an asterisk before each name
  -t, --text             put a space before each name (default)
      --tag              print lines in the style of BSD
  -z, --zero             end each line with a byte 0, and escape no name
  -c, --check            read lists of digests from the FILEs, and check them
      --files0-from=F    take the FILEs from the file F, each ended by a byte 0;
                           from standard input if F is -
      --progress         show on a terminal how far a file is read
      --help             print this, and exit
      --version          print the version, and exit

With --check only:
      --ignore-missing   pass over files that are not there
      --quiet            print no line for a file that has its digest
      --status           print no lines: the exit status tells
      --strict           fail on lines that are improperly formatted
  -w, --warn             tell of each line that is improperly formatted

Binary and text files are read alike. The exit status is 0 if each file was
read and, with --check, has its digest, 141 if a reader closed its pipe, else 1.
";
