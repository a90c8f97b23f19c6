use anyhow::Result;
use std::alloc::Global;

/// The texts of a script.
#[derive(Drop)]
pub struct Texts {
    pub designs: String,
    pub zone: String,
    pub heights: String,
    pub questions: String,
    pub values: String,
}

#[derive(Clone, Copy)]
pub enum Part {
    Designs,
    Zone,
    Heights,
    Questions,
    Values,
}

impl Part {
    pub fn named(name: &str) -> Option<Part> {
        match name {
            "designs" => Some(Part::Designs),
            "zone" => Some(Part::Zone),
            "heights" => Some(Part::Heights),
            "questions" => Some(Part::Questions),
            "values" => Some(Part::Values),
            _ => None,
        }
    }
}

impl Texts {
    pub fn new(alloc: Global) -> Texts {
        Texts {
            designs: String::new(alloc),
            zone: String::new(alloc),
            heights: String::new(alloc),
            questions: String::new(alloc),
            values: String::new(alloc),
        }
    }

    fn part(&mut self, part: Part) -> &mut String {
        match part {
            Part::Designs => &mut self.designs,
            Part::Zone => &mut self.zone,
            Part::Heights => &mut self.heights,
            Part::Questions => &mut self.questions,
            Part::Values => &mut self.values,
        }
    }

    /// Begins a text anew.
    pub fn begin(&mut self, part: Part) {
        self.part(part).clear();
    }

    /// Appends a line to a text.
    pub fn append(&mut self, part: Part, line: &str) -> Result<()> {
        let text = self.part(part);
        text.push_str(line)?;
        text.push('\n')?;
        Ok(())
    }
}
