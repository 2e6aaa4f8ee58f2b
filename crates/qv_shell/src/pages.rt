//! What is printed where the words are refused, or ask for help or the version.

ghost use Rattle.std.specs.Prelude.{◌≡◌};
ghost use Rattle.qv_shell.specs.Words.{page_text};

use qv_shell_args::Page;

/// The usage line, with its line feed.
pub(crate) const USAGE: &[u8] =
    b"usage: qbv solve SCRIPT CERT [--conflicts N] [--instances N] [--variables N] | qbv check SCRIPT CERT | qbv gen N | qbv bench N | qbv lrat CNF PROOF | qbv trim SCRIPT CERT NEW | qbv qsolve FILE CERT [--conflicts N] [--instances N] [--variables N] | qbv qcheck FILE CERT | qbv clauses SCRIPT CERT\n";

// The page of help.
const HELP: &[u8] = b"\
    usage: qbv SCRIPT [OPTION..]             solve SCRIPT, and keep no certificate\n\
    \x20      qbv solve SCRIPT CERT [OPTION..]  solve SCRIPT, and write the certificate of its answers into CERT\n\
    \x20      qbv check SCRIPT CERT [OPTION]    check the certificate CERT beside SCRIPT\n\
    \x20      qbv lrat CNF PROOF                check the LRAT proof PROOF of a SAT solver beside the clauses of CNF\n\
    \x20      qbv trim SCRIPT CERT NEW [OPTION] check CERT beside SCRIPT, and write its lines that are needed into NEW\n\
    \x20      qbv clauses SCRIPT CERT [OPTION]  check CERT beside SCRIPT, and print the clauses that its sections refute, in the DIMACS format\n\
    \x20      qbv qsolve FILE CERT [OPTION..]   solve the quantified Boolean formula FILE in the QDIMACS format\n\
    \x20      qbv qcheck FILE CERT [OPTION]     check the certificate CERT beside such a formula\n\
    \x20      qbv gen N                         print a script of N blocks, of which the answers are known; N is at most 100000\n\
    \x20      qbv bench N                       solve such a script and check its certificate in memory; N is at most 1000\n\
    \x20      qbv -h, --help, help              print this page\n\
    \x20      qbv --version                     print the version\n\
    \n\
    SCRIPT - is standard input. CERT - keeps nothing in solve, and in check, trim and clauses it is standard input where SCRIPT isn't.\n\
    CNF - or PROOF - is standard input, but not both. FILE - and CERT - are in qsolve as in solve, and in qcheck as in check.\n\
    NEW is the name of a file.\n\
    \n\
    options, for each check of a script, and for FILE:\n\
    \x20 --conflicts N   learn at most N clauses (1000000)\n\
    \x20 --instances N   take at most N instances of quantifiers (10000)\n\
    \x20 --variables N   have at most N variables in a list of clauses (4000000)\n\
    \x20 --places N      have at most N variables in the prefix of a problem, in check, trim, clauses and qcheck too (4096)\n\
    \n\
    options, for the whole run:\n\
    \x20 --check         in solve, check each section before its answer is printed\n\
    \x20 --verbose       in solve, say on standard error now and then how many checks were answered\n\
    \x20 --stats         say on standard error at the end how many checks were answered, and what was spent on them\n\
    \n\
    status: 0 done; 1 a fault of the script, of CNF or of FILE was printed; 2 the words are refused; 3 what is to be read can't be read;\n\
    \x20       4 the output, CERT or NEW can't be written; 5 out of memory; 6 the certificate or the proof is refused\n\
    \n\
    examples:\n\
    \x20 qbv first.smt2\n\
    \x20 qbv solve first.smt2 first.cert --conflicts 500000\n\
    \x20 qbv check first.smt2 first.cert\n\
    \x20 qbv trim first.smt2 first.cert small.cert\n\
    \x20 qbv clauses first.smt2 first.cert\n\
    \x20 qbv qsolve formula.qdimacs formula.cert\n\
    \x20 qbv gen 3 | qbv solve - - --variables 100000\n\
    \x20 qbv bench 20\n\
    ";

// The version, and the line of the kit that the program was proved with.
const VERSION: &[u8] = b"qbv 1\nrattle-kit-13f logic dac8208d650f15bf\n";

/// The text of a page.
pub(crate) fn text_of(page: Page) -> &'static [u8]
    ensures { result.now ≡ page_text page }
{
    match page {
        Page::Help => HELP,
        Page::Version => VERSION,
    }
}
