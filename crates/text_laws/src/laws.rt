//! Laws of the texts of certificates, each the contract of a function that does nothing.
ghost use Rattle.std.specs.Prelude.{◌≡◌, ◌≤◌, true};
ghost use Rattle.ac_sx.specs.Tree.{IsTree, depth, deepest};
ghost use Rattle.expression_lang.specs.Expression.{Exp};
ghost use Rattle.expression_text.specs.ExpText.{exp_tree, is_exp};
ghost use Rattle.monad_lang.specs.Program.{Mon};
ghost use Rattle.program_text.specs.MonText.{mon_tree, is_mon};
ghost use Rattle.simpl_lang.specs.Command.{Simpl};
ghost use Rattle.command_text.specs.CommandText.{command_tree, is_command};
ghost use Rattle.certificate_text.specs.CertificateText.{Certificate, certificate_tree, certificate_text, is_certificate};
ghost use Rattle.certificate_text.specs.Answer.{IsCertificateText};

/// The trees of expressions, programs and commands that have texts are trees of atoms.
pub fn programs_have_trees()
    ensures expressions { (e : Exp) → is_exp e ≡ true → IsTree (exp_tree e) }
    ensures programs { (m : Mon) → is_mon m ≡ true → IsTree (mon_tree m) }
    ensures commands { (c : Simpl) → is_command c ≡ true → IsTree (command_tree c) }
{}

/// So is the tree of a certificate that has a text. What is written of it is its text, unless the
/// tree nests too deep; so it is read back as the same certificate. And no two certificates that have
/// texts have one text.
pub fn certificates_have_texts()
    ensures trees { (c : Certificate) → is_certificate c ≡ true → IsTree (certificate_tree c) }
    ensures texts { (c : Certificate) → is_certificate c ≡ true →
        depth (certificate_tree c) ≤ deepest → IsCertificateText (certificate_text c) c }
    ensures one { (c d : Certificate) → is_certificate c ≡ true → is_certificate d ≡ true →
        certificate_text c ≡ certificate_text d → c ≡ d }
{}
