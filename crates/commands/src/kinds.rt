// Lines of a query, read word by word.
use crate::words::Words;
use lines::line::{Line, Side};

impl<'a> Words<'a> {
    // What the next word names.
    fn named<T: TryFrom<&'a [u8]>>(&mut self) -> Option<T>
    where
        T::Error: Drop,
    {
        T::try_from(self.next()?).ok()
    }

    fn side(&mut self) -> Option<Side> {
        let kind = self.next()?;
        self.side_of(kind)
    }

    // The side of a kind, from the word behind it.
    fn side_of(&mut self, kind: &[u8]) -> Option<Side> {
        match kind {
            b"column" => Some(Side::Column(self.count()?)),
            b"constant" => Some(Side::Constant(self.number()?)),
            _ => None,
        }
    }

    fn extend(&mut self) -> Option<Line> {
        let rows = self.count()?;
        match self.next()? {
            b"truth" => Some(Line::ExtendTruth {
                rows,
                condition: self.count()?,
            }),
            kind => Some(Line::Extend {
                rows,
                value: self.side_of(kind)?,
            }),
        }
    }

    fn apply(&mut self) -> Option<Line> {
        let form = self.next()?;
        let left = self.count()?;
        let right = self.count()?;
        match form {
            b"cross" => Some(Line::ApplyCross { left, right }),
            b"outer" => Some(Line::ApplyOuter { left, right }),
            b"semi" => Some(Line::ApplySemi { left, right }),
            b"anti" => Some(Line::ApplyAnti { left, right }),
            b"some" => Some(Line::ApplySome {
                sign: self.named()?,
                column: self.count()?,
                left,
                right,
            }),
            b"all" => Some(Line::ApplyAll {
                sign: self.named()?,
                column: self.count()?,
                left,
                right,
            }),
            _ => None,
        }
    }

    // The line that the words left say: its parts stand in the order that they are written in.
    pub(crate) fn line(&mut self) -> Option<Line> {
        match self.next()? {
            b"unit" => Some(Line::Unit),
            b"table" => Some(Line::Table {
                table: self.count()?,
            }),
            b"select" => Some(Line::Select {
                rows: self.count()?,
                condition: self.count()?,
            }),
            b"keep" => Some(Line::Keep {
                rows: self.count()?,
                first: self.count()?,
                last: self.count()?,
            }),
            b"extend" => self.extend(),
            b"pad" => Some(Line::Pad {
                rows: self.count()?,
                nulls: self.count()?,
            }),
            b"match" => Some(Line::Match {
                left: self.count()?,
                right: self.count()?,
                shared: self.count()?,
            }),
            b"semimatch" => Some(Line::SemiMatch {
                left: self.count()?,
                right: self.count()?,
                shared: self.count()?,
            }),
            b"antimatch" => Some(Line::AntiMatch {
                left: self.count()?,
                right: self.count()?,
                shared: self.count()?,
            }),
            b"union" => Some(Line::Union {
                left: self.count()?,
                right: self.count()?,
            }),
            b"diff" => Some(Line::Diff {
                left: self.count()?,
                right: self.count()?,
            }),
            b"distinct" => Some(Line::Distinct {
                rows: self.count()?,
            }),
            b"group" => Some(Line::Group {
                rows: self.count()?,
                keys: self.count()?,
                aggregate: self.named()?,
                column: self.count()?,
            }),
            b"total" => Some(Line::Total {
                rows: self.count()?,
                aggregate: self.named()?,
                column: self.count()?,
            }),
            b"apply" => self.apply(),
            b"compare" => Some(Line::Compare {
                left: self.side()?,
                sign: self.named()?,
                right: self.side()?,
            }),
            b"isnull" => Some(Line::IsNull {
                column: self.count()?,
            }),
            b"not" => Some(Line::Not {
                condition: self.count()?,
            }),
            b"unknown" => Some(Line::Unknown {
                condition: self.count()?,
            }),
            b"and" => Some(Line::And {
                left: self.count()?,
                right: self.count()?,
            }),
            b"or" => Some(Line::Or {
                left: self.count()?,
                right: self.count()?,
            }),
            _ => None,
        }
    }
}
