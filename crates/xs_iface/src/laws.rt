//! Laws of the module, for all XS files.

ghost use Rattle.std.specs.Prelude.{◌≡◌, Err, List, Ok, ℕ};
ghost use Rattle.xs_base.specs.Lines.{lines_of};
ghost use Rattle.xs_base.specs.declared.fault.Fault.{Fault};
ghost use Rattle.xs_base.specs.declared.fault_codes.TheConstants.{NOT_BUILT};
ghost use Rattle.xs_iface.specs.Iface.{module_of};
ghost use Rattle.xs_iface.specs.Laws.{IsOfBuiltForms, IsUnbuiltOn};
ghost use Rattle.xs_iface.specs.SumForm.{IsSumModule};
ghost use Rattle.xs_iface.specs.declared.xsub.Module.{Module};
ghost use Rattle.xs_sections.specs.Cut.{split_of};
ghost use Rattle.xs_sections.specs.declared.sections.Sections.{Sections};

/// The module of each XS file is one of XSUBs that are sums, and their names differ.
pub fn module_is_of_sums()
    ensures { (bytes : List ℕ) (s : Sections) (m : Module) → split_of bytes ≡ Ok s
        → module_of s ≡ Ok m → IsSumModule m }
{}

/// A file has a module only where each of its forms is built.
pub fn module_is_of_built_forms()
    ensures { (s : Sections) (m : Module) → module_of s ≡ Ok m → IsOfBuiltForms s }
{}

/// Where a form is not built, the fault says so on a line of the file: that of the first such form.
pub fn unbuilt_form_has_its_line()
    ensures { (bytes : List ℕ) (s : Sections) (f : Fault) → split_of bytes ≡ Ok s
        → module_of s ≡ Err f → f.code ≡ NOT_BUILT → IsUnbuiltOn (lines_of bytes) s f.line }
{}
