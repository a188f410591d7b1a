//! What follows from the definitions, each the contract of a function with nothing to do.

ghost use Rattle.cfn_fault.specs.Laws.{AllBegin, FaultOfText, GoodOrFault, LineFaults, NoFaultWhereGood, NoTextFaultWhereSpelled, OneCertificate, OneFault, OneMorePasses, OneTextFault, SomeBegins, SpellsOrTextFault, TextFaults, WholeSpells, WholeTexts};

/// For all bytes exactly one holds, whatever the network: they spell a certificate, and one alone, or the text fails at
/// one line. A fault of the kind of texts is that one.
pub fn law_texts()
    ensures one { OneCertificate }
    ensures some { SpellsOrTextFault }
    ensures not_both { NoTextFaultWhereSpelled }
    ensures one_line { OneTextFault }
    ensures kind { FaultOfText }
{}

/// For every network and all bytes exactly one holds: the bytes spell a good certificate, or they have a fault, at one
/// line and of one kind.
pub fn law_good_or_fault()
    ensures some { GoodOrFault }
    ensures not_both { NoFaultWhereGood }
    ensures one { OneFault }
{}

/// What the lines of a text say of certificates: where they may come one behind the other, some certificate begins with
/// them, each that begins so has them as its own lines, and where they are a whole text, they are those of a certificate
/// that it spells.
pub fn law_lines_of_certificates()
    ensures some { SomeBegins }
    ensures each { AllBegin }
    ensures whole { WholeSpells }
{}

/// What a checker that goes over the lines may conclude: lines that are right stay so with one right line more; behind
/// them the next line is the fault, by the grammar or by what it says; and where a whole text is right, only its lower
/// bound is left to judge.
pub fn law_line_by_line()
    ensures one_more { OneMorePasses }
    ensures by_grammar { TextFaults }
    ensures by_table { LineFaults }
    ensures whole { WholeTexts }
{}
