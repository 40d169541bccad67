//! What an input gives is one answer: a status, the files that are written, and what is said. Nothing here runs.
ghost use Rattle.std.specs.Prelude.{◌≡◌, ◌⊎◌, List, Some};
ghost use Rattle.bx_cert.specs.Certs.{Certificate};
ghost use Rattle.bx_desk.specs.Desk.{Files};
ghost use Rattle.bx_dots.specs.Cuts.{IsCut};
ghost use Rattle.bx_layout.specs.Grids.{FormGrid};
ghost use Rattle.bx_library.specs.Tiles.{Tiles, IsLibrary};
ghost use Rattle.bx_siqad.specs.Designs.{Drawing, IsDrawing};
ghost use Rattle.bx_syntax.specs.Parts.{ModuleTree};
ghost use Rattle.bx_verilog.specs.Formulas.{Text};
ghost use Rattle.bx_words.specs.Words.{first_fault};
ghost use Rattle.bx_words.specs.declared.faults.WordFault.{WordFault};
ghost use Rattle.bx_engine.specs.declared.status.InputFault.{InputFault};
ghost use Rattle.bx_engine.specs.Answers.{Answer, IsAnswer, AreRead};
ghost use Rattle.bx_engine.specs.Designs.{IsRefusedDesign, IsTakenDesign, IsRefusedCut, IsRefusedCert, IsTakenCert};
ghost use Rattle.bx_engine.specs.Statuses.{IsSettled};
ghost use Rattle.bx_engine.specs.Tasks.{Task, Names, Inputs, IsTask, inputs_of};
ghost use Rattle.bx_engine.specs.Texts.{IsRefused, IsTaken, IsRefusedLibrary, IsTakenLibrary, AreRefused, AreTaken};

/// Words and what is read for them have one answer, and nothing of the files counts but the texts of those that the words
/// name to be read.
pub fn an_input_has_one_answer()
    ensures one { (words : List Text) (inputs : Names → Inputs) (one other : Answer)
        → IsAnswer words inputs one → IsAnswer words inputs other → one ≡ other }
    ensures named { (words : List Text) (files others : Files) (answer : Answer)
        → ((names : Names) → AreRead words names → inputs_of others names ≡ inputs_of files names)
        → IsAnswer words (inputs_of files) answer → IsAnswer words (inputs_of others) answer }
{}

/// There is an answer: words that are misused have one, and so have those that ask for a task, where the files of its
/// module and of its library are there, and the library is refused or taken.
pub fn an_input_has_an_answer()
    ensures misused { (words : List Text) (inputs : Names → Inputs) (fault : WordFault)
        → first_fault words ≡ Some fault → (answer : Answer) × IsAnswer words inputs answer }
    ensures asked { (words : List Text) (files : Files) (task : Task) (text lib : Text)
        → IsTask words task → files task.net ≡ Some text → files task.lib ≡ Some lib
        → ((fault : InputFault) × IsRefusedLibrary lib fault)
        ⊎ ((book : Tiles) × IsTakenLibrary lib book)
        → (answer : Answer) × IsAnswer words (inputs_of files) answer }
{}

/// Each text of a module is refused for some fault, or taken as that of some module, and not both; the fault is one, and so is the
/// module.
pub fn each_text_is_refused_or_taken()
    ensures some { (text : Text)
        → ((fault : InputFault) × IsRefused text fault) ⊎ ((m : ModuleTree) × IsTaken text m) }
    ensures not_both { (text : Text) (m : ModuleTree) (fault : InputFault) → IsTaken text m
        → IsRefused text fault → ⊥ }
    ensures fault { (text : Text) (one other : InputFault) → IsRefused text one
        → IsRefused text other → one ≡ other }
    ensures one_module { (text : Text) (one other : ModuleTree) → IsTaken text one
        → IsTaken text other → one ≡ other }
{}

/// The text of a library is refused for one fault at most, or taken as one library, and not both.
pub fn a_library_is_refused_or_taken()
    ensures not_both { (text : Text) (lib : Tiles) (fault : InputFault) → IsTakenLibrary text lib
        → IsRefusedLibrary text fault → ⊥ }
    ensures fault { (text : Text) (one other : InputFault) → IsRefusedLibrary text one
        → IsRefusedLibrary text other → one ≡ other }
    ensures one_library { (text : Text) (one other : Tiles) → IsTakenLibrary text one
        → IsTakenLibrary text other → one ≡ other }
{}

/// Each text of a design is refused for some fault, or taken as some design, and not both; the fault is one, and so is the
/// design.
pub fn each_design_is_refused_or_taken()
    ensures some { (text : Text)
        → ((fault : InputFault) × IsRefusedDesign text fault)
        ⊎ ((drawing : Drawing) × IsTakenDesign text drawing) }
    ensures not_both { (text : Text) (drawing : Drawing) (fault : InputFault)
        → IsTakenDesign text drawing → IsRefusedDesign text fault → ⊥ }
    ensures fault { (text : Text) (one other : InputFault) → IsRefusedDesign text one
        → IsRefusedDesign text other → one ≡ other }
    ensures one_design { (text : Text) (one other : Drawing) → IsTakenDesign text one
        → IsTakenDesign text other → one ≡ other }
{}

/// The dots of each design are cut by each library, or the design is refused for what is in the way of that, and not both;
/// the fault is one, and so is the form grid.
pub fn each_design_is_cut_or_refused()
    ensures some { (lib : Tiles) (drawing : Drawing) → IsLibrary lib → IsDrawing drawing
        → ((fault : InputFault) × IsRefusedCut lib drawing fault)
        ⊎ ((grid : FormGrid) × IsCut lib drawing.ratio drawing.dots grid) }
    ensures not_both { (lib : Tiles) (drawing : Drawing) (grid : FormGrid) (fault : InputFault)
        → IsLibrary lib → IsCut lib drawing.ratio drawing.dots grid
        → IsRefusedCut lib drawing fault → ⊥ }
    ensures fault { (lib : Tiles) (drawing : Drawing) (one other : InputFault) → IsLibrary lib
        → IsRefusedCut lib drawing one → IsRefusedCut lib drawing other → one ≡ other }
    ensures one_grid { (lib : Tiles) (drawing : Drawing) (one other : FormGrid) → IsLibrary lib
        → IsCut lib drawing.ratio drawing.dots one → IsCut lib drawing.ratio drawing.dots other
        → one ≡ other }
{}

/// Each text of a certificate is refused for some fault, or taken as some certificate, and not both; the fault is one, and
/// so is the certificate.
pub fn each_certificate_is_refused_or_taken()
    ensures some { (text : Text)
        → ((fault : InputFault) × IsRefusedCert text fault)
        ⊎ ((cert : Certificate) × IsTakenCert text cert) }
    ensures not_both { (text : Text) (cert : Certificate) (fault : InputFault)
        → IsTakenCert text cert → IsRefusedCert text fault → ⊥ }
    ensures fault { (text : Text) (one other : InputFault) → IsRefusedCert text one
        → IsRefusedCert text other → one ≡ other }
    ensures one_certificate { (text : Text) (one other : Certificate) → IsTakenCert text one
        → IsTakenCert text other → one ≡ other }
{}

/// What is read for a task is refused for one fault, or taken as one module and one library, and not both.
pub fn inputs_are_refused_or_taken()
    ensures not_both { (inputs : Inputs) (m : ModuleTree) (lib : Tiles) (fault : InputFault)
        → AreTaken inputs m lib → AreRefused inputs fault → ⊥ }
    ensures fault { (inputs : Inputs) (one other : InputFault) → AreRefused inputs one
        → AreRefused inputs other → one ≡ other }
    ensures taken { (inputs : Inputs) (m n : ModuleTree) (lib other : Tiles)
        → AreTaken inputs m lib → AreTaken inputs n other → (m ≡ n) × (lib ≡ other) }
{}

/// No answer is want of memory or a fault of reading or writing.
pub fn an_answer_is_settled()
    ensures { (words : List Text) (inputs : Names → Inputs) (answer : Answer)
        → IsAnswer words inputs answer → IsSettled answer.status }
{}
