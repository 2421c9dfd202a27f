//! What the program says of its use, whole and of each command.

/// How the program is used.
pub const HELP: &str = "usage: firnuubal COMMAND [OPTION...] [FILE...]
Reads HTML pages as they arrive, and prints what it finds.

Commands:
  tokens  the tokens, a line each, with errors and line numbers
  links   the links, a line each
  text    the text, without scripts and styles
  clean   the pages, with only allowed elements and attributes in them
  check   what is wrong in the pages or templates, a line each, with lines and columns
  rewrite the pages with attributes set or removed, elements dropped, or addresses made absolute

Without a FILE, or if FILE is -, it reads standard input. After -- all words are files.
'firnuubal COMMAND --help' says more about a command.
  --help     this text
  --version  the program's name and its version

The exit status is 0 on success, and also if the reader of the output went away. It is 1 if a file
can't be read, and each such file is named; if the output can't be written; if memory runs out; or
if check found something. It is 2 for wrong arguments: an unknown option, encoding, format or
template language, a wrong URL or change, or a file for --entities or --policy that is wrong or
can't be read.
";

// How a command is used that reads pages: what it does, its own options that stand first, those of each command, and
// its other ones.
macro_rules! reading_help {
    ($command:literal, $about:literal, [$($first:literal)*], [$($more:literal)*]) => {
        concat!(
            $about,
            "
Without a FILE, or if FILE is -, it reads standard input. After -- all words are files.
",
            $($first,)*
            "  --encoding LABEL the encoding of the pages, as a server gives it: a label of the Encoding
                   Standard, such as windows-1252, shift_jis or utf-16le. A byte order mark comes
                   before it. By default a <meta charset=..> or an XML declaration decides, in a
                   page's first 1,024 bytes or in the ASCII that it begins with. Without one the
                   page is UTF-8 if these bytes are, and else windows-1252. Malformed bytes become
                   U+FFFD. The output is UTF-8
                   Example: firnuubal ",
            $command,
            " --encoding shift_jis page.html
  --fatal          stop a page at its first malformed bytes. With --encoding a page has that
                   encoding, or that of its byte order mark. Without --encoding it must be UTF-8,
                   whatever it says
                   Example: firnuubal ",
            $command,
            " --fatal page.html
  --entities FILE  the named character references, in place of the standard's 2,231: one entry
                   a line, or joined by commas, each NAME=HEX or NAME=HEX+HEX
                   Example: firnuubal ",
            $command,
            " --entities names.txt page.html
  --progress       show on standard error, if that is a terminal, how many megabytes of a file
                   were read, and how many a second
                   Example: firnuubal ",
            $command,
            " --progress page.html > out
",
            $($more,)*
            "  --help           this text
                   Example: firnuubal ",
            $command,
            " --help
  --version        the program's name and its version
                   Example: firnuubal ",
            $command,
            " --version
"
        )
    };
}

// How a command is used that prints in a format, with names in front: what it does, and its own options.
macro_rules! formatting_help {
    ($command:literal, $about:literal, [$($more:literal)*]) => {
        reading_help!(
            $command,
            $about,
            [],
            [
                "  --format FORMAT  lines, the default, or json: one JSON object a line
                   Example: firnuubal "
                $command
                " --format json page.html
  -H, --with-filename
                   print the file's name in front of each line, with a colon after it, or with
                   json as a member \"file\". It is the default for more than one FILE. The name
                   of standard input is -
                   Example: firnuubal "
                $command
                " -H page.html
  -h, --no-filename
                   print no names, however many files there are. The last of -H and -h counts
                   Example: firnuubal "
                $command
                " -h a.html b.html
"
                $($more)*
            ]
        )
    };
}

/// How `tokens` is used.
pub const TOKENS: &str = formatting_help!(
    "tokens",
    "usage: firnuubal tokens [OPTION...] [FILE...]
Prints the tokens of HTML pages as they arrive, one a line: its kind, the number of the line that
the tokenizer has reached, and its content. Parse errors have lines of their own.
  Example: firnuubal tokens page.html
",
    []
);

/// How `links` is used.
pub const LINKS: &str = formatting_help!(
    "links",
    "usage: firnuubal links [OPTION...] [FILE...]
Prints the links of HTML pages as they arrive, one a line: the number of the line on which the
tag ends, a space, and the link. Links are the href of a, area and link, and the src of img,
script and iframe. They are printed as they are written, or with --base as absolute URLs.
  Example: firnuubal links page.html
",
    [
        "  --base URL       the URL of the pages. Each link is resolved against it, or against the first
                   <base href> of the page, once that was read. A link that can't be resolved
                   is printed as it is written
                   Example: firnuubal links --base https://a.example/b/ page.html
"
    ]
);

/// How `text` is used.
pub const TEXT: &str = reading_help!(
    "text",
    "usage: firnuubal text [OPTION...] [FILE...]
Prints the text between the tags of HTML pages as it arrives, with references decoded, and without
scripts and styles.
  Example: firnuubal text page.html
",
    [],
    []
);

/// How `clean` is used.
pub const CLEAN: &str = reading_help!(
    "clean",
    "usage: firnuubal clean [OPTION...] [FILE...]
Prints HTML pages with only allowed elements and attributes in them, and addresses that are
relative or have allowed schemes. It keeps the text, except that of scripts, styles and the like,
and drops comments. It prints a page as it arrives. The standard policy fixes the nesting, so that
browsers build exactly the tree that the tags show.
  Example: firnuubal clean page.html
",
    [
        "  --policy FILE    what is allowed, in place of the standard policy, one rule a line:
                     allow ELEMENT [ATTRIBUTE..]   an element, and attributes of it
                     everywhere ATTRIBUTE..        attributes of every element
                     schemes SCHEME..              schemes of addresses
                     hide ELEMENT..                elements dropped with their content
                     rel WORD..                    each link gets these words as its rel
                     balance                       close each element, drop other end tags
                     tree                          browsers build the tree that the tags show
                     depth NUMBER                  open elements with tree: 1 to 4096, or 256
                   Empty lines are ignored, and so are lines that begin with #
                   Example: firnuubal clean --policy policy.txt page.html
  --print-policy   print the standard policy, as a start for your own
                   Example: firnuubal clean --print-policy > policy.txt
"
    ],
    []
);

/// How `check` is used.
pub const CHECK: &str = reading_help!(
    "check",
    "usage: firnuubal check [OPTION...] [FILE...]
Prints the faults of HTML pages, one a line: the name of the file, the line, the column and a code,
as page.html:12:5: error: unexpected-null-character. Parse errors have the codes of the HTML
Standard; an error without a code there is a parse-error. The other codes are:
end-tag-without-start, end-tag-of-void-element, unclosed-element,
non-void-html-element-start-tag-with-trailing-solidus, duplicate-id, misspelled-element,
misspelled-attribute. It reads each page whole before it checks it. The exit status is 1 if it found
something.
  Example: firnuubal check page.html
",
    [],
    [
        "  --format FORMAT  lines, the default; json: one JSON object a line, which also has the column in
                   UTF-16 code units, and where the finding begins and ends in the bytes of the
                   page's text in UTF-8; or sarif: a SARIF 2.1.0 log, as code hosts read it
                   Example: firnuubal check --format json page.html
  --template NAME  the template language of the pages, whose constructs are masked: jinja ({{ }},
                   {% %}, {# #}), mustache ({{ }}, {{{ }}}) or erb (<% %>). All branches count: an
                   element that two branches open is open twice
                   Example: firnuubal check --template jinja page.html
"
    ]
);

/// How `rewrite` is used.
pub const REWRITE: &str = reading_help!(
    "rewrite",
    "usage: firnuubal rewrite [OPTION...] [FILE...]
Prints HTML pages with attributes set or removed, elements dropped, or addresses made absolute.
Changed tags are written anew, with their attributes in double quotes. Everything else is copied
byte for byte: comments, scripts and faults too. It prints a page as it arrives.
  Example: firnuubal rewrite --drop script page.html
",
    [],
    [
        "  --set ELEMENT.ATTRIBUTE=VALUE
                   set an attribute of each start tag of the element, in place of one of that name
                   Example: firnuubal rewrite --set a.rel=nofollow page.html
  --remove ELEMENT.ATTRIBUTE
                   remove the attribute from each start tag of the element
                   Example: firnuubal rewrite --remove a.onclick page.html
  --drop ELEMENT   drop the element with its content, up to its end tag, or without one to the
                   end of the page
                   Example: firnuubal rewrite --drop script --drop style page.html
  --absolute URL   the URL of the pages. The href of a, area and link, and the src of img, script
                   and iframe are resolved against it, or against the first <base href> of the
                   page, once that was read. One that is empty or can't be resolved stays
                   Example: firnuubal rewrite --absolute https://a.example/b/ page.html
  --noopener       put noopener among the words of rel of each a, area and form with a target
                   Example: firnuubal rewrite --noopener page.html
"
    ]
);
